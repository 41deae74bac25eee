//! What entries gain that come one after the other, in the order of their places.
ghost use Rattle.std.specs.Prelude.{◌≡◌, ◌≢◌, ℕ, ◌+◌, ◌*◌, ◌<◌, ◌≤◌, ◌^◌, [], Some, None, IfSome, IfOk, OnOk};
ghost use Rattle.std.specs.Prelude.{slice_index, if◌then◌else◌, List};
ghost use Rattle.std.specs.Option.{option_map};
ghost use Rattle.call_rules.specs.WellFormed.{IsWrittenCall};
ghost use Rattle.rank_rules.specs.Windows.{window_number};
ghost use Rattle.kept_rows.specs.Gifts.{Given, gained_by};
ghost use Rattle.entry_gains.specs.ByPlace.{IsComing, KeepsInOrder, front_of, round_begun};
ghost use Rattle.entry_gains.specs.Gains.{one_more, row_of};

use crate::gains::Gains;
use crate::windows::{begins_window, window_named};
use cell_face::Front;
use rma_types::{Call, NoMemory, Step};
use std::alloc::Global;

/// How many windows of each of 32 names each of 16 ranks has begun to create.
#[derive(Clone, Copy, Debug)]
pub(crate) struct Begun {
    pub(crate) counts: [u32; 512],
}

impl Begun {
    /// The number of the window of the name that an entry of the rank is on, which `begins` to create it or not. An
    /// entry on no window counts as on that of number 0.
    fn number(&self, rank: u8, name: Option<u8>, begins: bool) -> u32
        requires rank { rank < 16 }
        requires name { IfSome name (λ n. n < 32) }
        ensures none { name ≡ None → result ≡ 0 }
        ensures named { (n : ℕ) → name ≡ Some n →
            slice_index self.now.counts (32 * rank + n) < 2 ^ 26 →
            result ≡ window_number (round_begun begins (slice_index self.now.counts (32 * rank + n))) n }
    {
        match name {
            None => 0,
            Some(name) => {
                let count = self.counts[32 * rank as usize + name as usize];
                let round = if begins {
                    count
                } else {
                    count.saturating_sub(1)
                };
                round.saturating_mul(32).saturating_add(name as u32)
            }
        }
    }

    /// An entry of the rank on the window of the name has come.
    fn add(&mut self, rank: u8, name: Option<u8>, begins: bool)
        requires rank { rank < 16 }
        requires name { IfSome name (λ n. n < 32) }
        ensures here { (n : ℕ) → name ≡ Some n →
            slice_index self.old.counts (32 * rank + n) < 2 ^ 26 →
            slice_index self.new.counts (32 * rank + n) ≡
            slice_index self.old.counts (32 * rank + n) + (if begins then 1 else 0) }
        ensures others { (index : ℕ) → ((n : ℕ) → name ≡ Some n → index ≢ 32 * rank + n) →
            slice_index self.new.counts index ≡ slice_index self.old.counts index }
    {
        if let Some(name) = name {
            let at = 32 * rank as usize + name as usize;
            if begins {
                self.counts[at] = self.counts[at].saturating_add(1);
            }
        }
    }
}

/// What entries gain that come one after the other, in the order of their places: the fronts that were given with
/// exactly those earlier entries from which an edge leads to them, merged (MPI 3.1, sections 11.5 and 11.7, in this
/// project's profile of order).
///
/// Nothing is asked of the board: each entry is one that it has allowed. No call is kept.
#[derive(Drop)]
pub struct GainsByPlace {
    gains: Gains<Front>,
    begun: Begun,
}

impl GainsByPlace {
    /// No entry yet, for up to 16 ranks.
    pub fn new(alloc: Global, ranks: u8) -> GainsByPlace
        requires { ranks ≤ 16 }
        ensures { KeepsInOrder ranks [] result }
    {
        GainsByPlace {
            gains: Gains::new(alloc, ranks, Front { places: [0; 16] }),
            begun: Begun { counts: [0; 512] },
        }
    }

    /// The next entry comes, a step of a call of a rank, which gives a front with it or none. It is answered by what it
    /// gains, if anything.
    pub fn enter(
        &mut self,
        rank: u8,
        call: &Call,
        step: Step,
        gift: Option<Front>,
    ) -> Result<Option<Front>, NoMemory>
        requires rank { rank < 16 }
        requires written { IsWrittenCall call.now }
        ensures gains { IfOk result (λ gained. (ranks : ℕ) (entries : List Given) (number : ℕ) →
            IsComing ranks entries (row_of rank number call.now step) → KeepsInOrder ranks entries self.old →
            option_map front_of gained ≡ gained_by ranks entries (row_of rank number call.now step)) }
        ensures keeps { OnOk result ((ranks : ℕ) (entries : List Given) (number : ℕ) →
            IsComing ranks entries (row_of rank number call.now step) → KeepsInOrder ranks entries self.old →
            let row = row_of rank number call.now step in
            KeepsInOrder ranks (one_more entries row (option_map front_of gift)) self.new) }
    {
        self.gains.reserve()?;
        let name = window_named(call);
        let begins = begins_window(call, step);
        let window = self.begun.number(rank, name, begins);
        let gained = self.gains.gained(rank, window, call, step);
        self.gains.put(rank, window, call, step, gift);
        self.begun.add(rank, name, begins);
        Ok(gained)
    }
}
