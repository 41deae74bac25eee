//! The findings of the judgement.
use crate::accesses::Id;

/// A rule that forbids a pair of accesses (after MPI 3.1, section 11.7).
#[derive(Clone, Copy, Debug, PartialEq, Eq)]
pub enum Rule {
    S1,
    S2,
    S3,
}

/// A forbidden pair: the second access, and its least partner with a smaller Id.
#[derive(Clone, Copy, Debug, PartialEq, Eq)]
pub struct Finding {
    pub first: Id,
    pub second: Id,
    pub rule: Rule,
}

/// The memory model by which a run is judged (MPI 3.1, section 11.4).
#[derive(Clone, Copy, Debug, PartialEq, Eq)]
pub enum Model {
    Separate,
    Unified,
}
