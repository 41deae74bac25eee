//! What is kept of a step and of an access.

use rma_record::Run;
use rma_types::{Access, Id, Items, Script, Step};

/// The access epoch of a rank on a window: none, that of a fence, that of a start, or one with passive targets
/// (MPI 3.1, section 11.5).
#[derive(Clone, Copy, Debug, PartialEq, Eq)]
pub enum EpochKind {
    NoEpoch,
    Fence,
    Start,
    Passive,
}

/// A step of an accepted call: its name, the number of its call in its rank's list, which step of the call it is, its
/// place where it is an entry of the board, the number of the live window that the call names, and the number of the
/// call that made the live request which the call ends, as the rank knew them before the step.
#[derive(Clone, Copy, Debug)]
pub struct KeptStep {
    pub id: Id,
    pub call: u32,
    pub step: Step,
    pub place: Option<u32>,
    pub window: Option<u32>,
    pub maker: Option<u32>,
}

/// An access: its name, the number of its call in its rank's list, what was issued, and the access epoch on its window
/// in which its rank was before it.
#[derive(Clone, Copy, Debug)]
pub struct KeptAccess {
    pub id: Id,
    pub call: u32,
    pub access: Access,
    pub epoch: EpochKind,
}

/// The steps and the accesses of a rank, in the order of its log.
#[derive(Debug, Drop)]
pub struct RankRecord {
    pub steps: Items<KeptStep>,
    pub accesses: Items<KeptAccess>,
}

/// The run of a script, with the steps and the accesses of each rank.
#[derive(Drop)]
pub struct RunRecord<'r> {
    pub script: &'r Script,
    pub run: &'r Run,
    pub ranks: Vec<RankRecord>,
}
