//! The choices that a run is made by.

/// The order in which a run on one thread picks the rank of its next step.
#[derive(Clone, Copy, Debug, PartialEq, Eq)]
pub enum Order {
    /// The next rank after the last one, ascending and round.
    Robin,
    /// The next rank before the last one, descending and round.
    Reverse,
    /// The lowest rank.
    Greedy,
    /// A drawn rank.
    Seeded,
}

/// When the touches of an access are made.
#[derive(Clone, Copy, Debug, PartialEq, Eq)]
pub enum Delay {
    /// In the step of its call.
    None,
    /// When a later call must have it.
    End,
    /// At drawn moments before that.
    Seeded,
}
