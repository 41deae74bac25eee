//! The answers of a step.

/// What a step of a rank came to.
#[derive(Clone, Copy, Debug, PartialEq, Eq)]
pub enum Turned {
    /// The step is done.
    Did,
    /// The next entry of the rank is neither allowed nor refused now: the rank waits.
    NotYet,
    /// An attempt on a cell came too late: the access at hand is touched in part, and goes on with the next step.
    Again,
    /// There is no room for the items of a step.
    Full,
    /// The rank has no more to do.
    Ended,
}
