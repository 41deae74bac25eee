//! What a rank knows at a place of its log, as small tables by name.
ghost use Rattle.std.specs.Prelude.{◌≡◌, ◌<◌, replicate, slice_index_or, None, IfOk, OnOk};
ghost use Rattle.rma_rules.specs.WindowNumbers.{IsEmptyTable};
ghost use Rattle.rank_records.specs.Deeds.{IsWrittenDeed};
ghost use Rattle.rank_records.specs.Tables.{kind_in, locks_in, maker_in, number_in, one_less, taught, turned};
ghost use Rattle.rank_records.specs.declared.deeds.Turn.TheVariants.{Post};
ghost use Rattle.rank_records.specs.declared.tables.Epoch.TheVariants.{Idle};

use crate::deeds::{Deed, Turn};
use crate::kept::EpochKind;
use rma_rules::WindowNumbers;
use rma_types::NoMemory;

/// The access epoch of a rank on a window, with how many targets it has locked one by one (MPI 3.1, section 11.5).
#[derive(Clone, Copy, Debug, PartialEq, Eq)]
pub(crate) enum Epoch {
    Idle,
    Fence,
    Start,
    Locks(u32),
    LockAll,
}

impl Epoch {
    /// What is kept of the epoch.
    pub(crate) fn kind(self) -> EpochKind
        ensures { result ≡ kind_in self }
    {
        match self {
            Epoch::Idle => EpochKind::NoEpoch,
            Epoch::Fence => EpochKind::Fence,
            Epoch::Start => EpochKind::Start,
            Epoch::Locks(_) => EpochKind::Passive,
            Epoch::LockAll => EpochKind::Passive,
        }
    }

    /// How many targets are locked one by one.
    fn locks(self) -> u32
        ensures { result ≡ locks_in self }
    {
        match self {
            Epoch::Locks(count) => count,
            Epoch::Idle | Epoch::Fence | Epoch::Start | Epoch::LockAll => 0,
        }
    }

    /// The epoch after an unlock of one target; no lock at all is no epoch.
    fn unlocked(self) -> Epoch
        ensures { result ≡ one_less (locks_in self) }
    {
        let count = self.locks();
        if 1 < count {
            Epoch::Locks(count - 1)
        } else {
            Epoch::Idle
        }
    }

    /// The epoch after a post, which ends that of a fence.
    fn posted(self) -> Epoch
        ensures { result ≡ turned self Post }
    {
        match self {
            Epoch::Fence => Epoch::Idle,
            _ => self,
        }
    }

    /// The epoch after a synchronisation.
    fn turned(self, turn: Turn) -> Result<Epoch, NoMemory>
        ensures { IfOk result (λ new. new ≡ turned self turn) }
    {
        match turn {
            Turn::Stay => Ok(self),
            Turn::End => Ok(Epoch::Idle),
            Turn::Fence => Ok(Epoch::Fence),
            Turn::Start => Ok(Epoch::Start),
            Turn::Post => Ok(self.posted()),
            Turn::Lock => {
                let count = self.locks().checked_add(1).ok_or(NoMemory)?;
                Ok(Epoch::Locks(count))
            }
            Turn::Unlock => Ok(self.unlocked()),
            Turn::LockAll => Ok(Epoch::LockAll),
        }
    }
}

/// What a rank knows: the numbers of its live windows, its access epochs by window name, and for each request name the
/// number of the call that made its live request (MPI 3.1, sections 11.2, 11.3.5 and 11.5).
#[derive(Clone, Copy, Debug)]
pub(crate) struct Known {
    numbers: WindowNumbers,
    epochs: [Epoch; 32],
    makers: [Option<u32>; 64],
}

impl Known {
    /// What a rank knows before its first call.
    pub(crate) fn new() -> Known
        ensures numbers { IsEmptyTable result.numbers }
        ensures epochs { result.epochs ≡ replicate 32 Idle }
        ensures makers { result.makers ≡ replicate 64 None }
    {
        Known {
            numbers: WindowNumbers::new(),
            epochs: [Epoch::Idle; 32],
            makers: [None; 64],
        }
    }

    /// The number of the live window that a call names.
    pub(crate) fn number(&self, deed: Deed) -> Option<u32>
        requires { IsWrittenDeed deed }
        ensures { result ≡ number_in self.now deed }
    {
        match deed.window() {
            Some(win) => self.numbers.number(win),
            None => None,
        }
    }

    /// The number of the call that made the live request which a call ends.
    pub(crate) fn maker(&self, deed: Deed) -> Option<u32>
        requires { IsWrittenDeed deed }
        ensures { result ≡ maker_in self.now deed }
    {
        match deed.ended() {
            Some(request) => self.makers[request as usize],
            None => None,
        }
    }

    /// The access epoch on the window of this name.
    pub(crate) fn epoch(&self, win: u8) -> Epoch
        requires { win < 32 }
        ensures { result ≡ slice_index_or self.now.epochs win Idle }
    {
        self.epochs[win as usize]
    }

    /// A call of this number is accepted.
    pub(crate) fn learn(&mut self, number: u32, deed: Deed) -> Result<(), NoMemory>
        requires { IsWrittenDeed deed }
        ensures { OnOk result (self.new ≡ taught self.old number deed) }
    {
        match deed {
            Deed::Makes { win } => {
                self.numbers.make(win)?;
                self.epochs[win as usize] = Epoch::Idle;
            }
            Deed::Frees { win } => {
                self.numbers.free(win);
                self.epochs[win as usize] = Epoch::Idle;
            }
            Deed::Turns { win, turn } => {
                let epoch = self.epoch(win).turned(turn)?;
                self.epochs[win as usize] = epoch;
            }
            Deed::Meets => {}
            Deed::Moves { request, .. } => {
                if let Some(name) = request {
                    self.makers[name as usize] = Some(number);
                }
            }
            Deed::Ends { request } => self.makers[request as usize] = None,
        }
        Ok(())
    }
}
