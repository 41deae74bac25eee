//! Where gifts are kept until they are gained.

/// Which collective calls are meant.
#[derive(Clone, Copy, Debug, PartialEq, Eq, Hash)]
pub(crate) enum Meeting {
    Creation,
    Freeing,
    Fence,
    Barrier,
}

/// The key of what some entries gave, which the entries that come after them gain together.
#[derive(Clone, Copy, Debug, PartialEq, Eq, Hash)]
pub(crate) enum Slot {
    /// The arrivals of one round.
    Round {
        window: u32,
        meeting: Meeting,
        round: u32,
    },
    /// The post of this number, from 0, among those of `from` that name `to`.
    Post {
        window: u32,
        from: u8,
        to: u8,
        number: u32,
    },
    /// The complete of this number, from 0, among those of `from` whose start names `to`.
    Complete {
        window: u32,
        from: u8,
        to: u8,
        number: u32,
    },
    /// The unlocks that gave back a lock at the target: an exclusive one, or any.
    Unlock {
        window: u32,
        target: u8,
        exclusive: bool,
    },
}
