//! The clocks of a run's entries, in the order of their places.
ghost use Rattle.std.specs.Prelude.{◌≡◌, ◌<◌, ◌++◌, ℕ, List, [], ◌∷◌, length, map, replicate, slice_set};
ghost use Rattle.std.specs.Prelude.{IfOk, OnOk};
ghost use Rattle.std.specs.Option.{option_map};
ghost use Rattle.call_rules.specs.WellFormed.{IsWrittenCall};
ghost use Rattle.cell_face.specs.declared.fronts.Front.{Front as FrontValue};
ghost use Rattle.kept_rows.specs.Gifts.{Given};
ghost use Rattle.entry_gains.specs.ByPlace.{IsComing, KeepsInOrder};
ghost use Rattle.lawful_runs.specs.Logs.{entries_of};
ghost use Rattle.rank_records.specs.Kept.{IsRecorded};
ghost use Rattle.vector_clocks.specs.Marks.{last_counts, marks_of};
ghost use Rattle.vector_clocks.specs.Numbers.{counts_of, raised};
ghost use Rattle.vector_clocks.specs.Places.{placed_item};
ghost use Rattle.vector_clocks.specs.Replays.{IsPut, Replayed};
ghost use Rattle.vector_clocks.specs.Rows.{row_placed};

use crate::marks::Mark;
use crate::places::{Placed, call_at};
use cell_face::{Front, Token};
use entry_gains::GainsByPlace;
use rank_records::RunRecord;
use rma_types::{Call, Items, NoMemory};
use std::alloc::Global;

/// The numbers of the last mark, or none.
fn last_numbers(marks: &[Mark]) -> [u32; 16]
    ensures { result ≡ last_counts marks.now }
{
    let count = marks.len();
    if count == 0 {
        return [0; 16];
    }
    marks[count - 1].counts
}

/// Counts the item of this index at its rank.
#[tactic(auto, unfolding(crate::specs::Numbers::raised))]
fn raise_own(counts: &mut [u32], rank: u8, index: u32) -> Result<(), NoMemory>
    requires { rank < length counts.old }
    ensures { OnOk result (counts.new ≡ raised counts.old rank index) }
{
    let own = index.checked_add(1).ok_or(NoMemory)?;
    let at = rank as usize;
    counts[at] = counts[at].max(own);
    Ok(())
}

/// The greater of each two numbers.
#[tactic(auto, unfolding(crate::specs::Numbers::counts_of))]
fn joined(counts: [u32; 16], gained: Option<Front>) -> [u32; 16]
    ensures { result ≡ counts_of (option_map (λ (front : FrontValue). front.places) gained) counts }
{
    match gained {
        Some(other) => {
            let mut front = Front { places: counts };
            front.merge(other);
            front.places
        }
        None => counts,
    }
}

fn push_mark(clocks: &mut [Items<Mark>], rank: u8, mark: Mark) -> Result<(), NoMemory>
    requires { rank < length clocks.old }
    ensures { OnOk result (clocks.new ≡ slice_set clocks.old rank
        (marks_of clocks.old rank ++ mark ∷ [])) }
{
    let marks = &mut clocks[rank as usize];
    match marks.push(mark) {
        Ok(()) => Ok(()),
        Err(_) => Err(NoMemory),
    }
}

/// The entry comes to the gains, and its clock to those of its rank.
fn enter(
    gains: &mut GainsByPlace,
    clocks: &mut [Items<Mark>],
    one: Placed,
    call: &Call,
) -> Result<(), NoMemory>
    requires written { IsWrittenCall call.now }
    requires rank { one.id.rank < 16 }
    requires lists { length clocks.old ≡ 16 }
    ensures put { OnOk result ((ranks : ℕ) (entries : List Given) →
        IsComing ranks entries (row_placed one call.now) → KeepsInOrder ranks entries gains.old →
        IsPut ranks one call.now entries clocks.old gains.new clocks.new) }
    ensures lists { length clocks.new ≡ 16 }
{
    let mut counts = last_numbers(clocks[one.id.rank as usize].as_slice());
    raise_own(&mut counts, one.id.rank, one.id.index)?;
    let gift = Front { places: counts };
    let gained = gains.enter(one.id.rank, call, one.step, Some(gift))?;
    let mark = Mark {
        index: one.id.index,
        counts: joined(counts, gained),
    };
    push_mark(clocks, one.id.rank, mark)?;
    Ok(())
}

/// A list of marks for each of 16 ranks, all empty.
#[tactic(auto, using(list_laws::proofs::Numbers::one_more_of))]
pub(crate) fn no_marks(alloc: Global) -> Result<Vec<Items<Mark>>, NoMemory>
    ensures { IfOk result (λ clocks. clocks.items ≡ replicate 16 []) }
{
    let mut clocks: Vec<Items<Mark>> = Vec::new(alloc);
    for _ in 0..16u8 {
        let Ok(()) = clocks.push(Items::new(alloc)) else {
            return Err(NoMemory);
        };
    }
    Ok(clocks)
}

/// The clocks of all entries of a lawful run, which come to the gains in the order of their places.
pub(crate) fn replay(
    recorded: &RunRecord,
    order: &[Placed],
    gains: &mut GainsByPlace,
    clocks: &mut [Items<Mark>],
) -> Result<(), NoMemory>
    requires recorded { IsRecorded recorded.now }
    requires order { map placed_item order.now ≡ entries_of recorded.now.run.now }
    requires lists { length clocks.old ≡ 16 }
    requires first { Replayed recorded.now.script.now recorded.now.run.now 0 gains.old clocks.old }
    ensures { OnOk result (Replayed recorded.now.script.now recorded.now.run.now
        (length order.now) gains.new clocks.new) }
{
    for at in 0..order.len() {
        let one = order[at];
        let call = call_at(recorded.script, one.id.rank, one.call);
        enter(gains, clocks, one, call)?;
    }
    Ok(())
}
