//! Which slots one entry fills, and from which a next entry gains.
ghost use Rattle.std.specs.Prelude.{◌≡◌, ◌<◌, ◌≤◌, ◌-◌, ℕ, None};
ghost use Rattle.entry_gains.specs.Plans.{plan_slot, unlock_slot_of};

use crate::slots::Slot;
use rma_types::Lock;

/// The slots of one entry, at up to 32 indices: mostly one for each of 16 ranks.
#[derive(Clone, Copy, Debug)]
pub(crate) enum Plan {
    Nothing,
    /// One slot alone.
    One(Slot),
    /// A post: the slot of each rank that it names, by how many posts named the rank before.
    Posts {
        window: u32,
        from: u8,
        named: [bool; 16],
        numbers: [u32; 16],
    },
    /// A start: the slot of the post that it follows, of each rank that it names.
    Starts {
        window: u32,
        to: u8,
        named: [bool; 16],
        numbers: [u32; 16],
    },
    /// A complete: the slot of each rank that its start names, by the number of that start, from 1.
    Completes {
        window: u32,
        from: u8,
        numbers: [u32; 16],
    },
    /// A wait: the slot of the complete of each rank that the post names.
    Waits {
        window: u32,
        to: u8,
        named: [bool; 16],
        numbers: [u32; 16],
    },
    /// An unlock: the slots of each target at which it gives back a lock; those for exclusive ones stand from 16 on.
    Unlocks {
        window: u32,
        held: [Option<Lock>; 16],
    },
    /// A lock, or a lock_all: the slot of each of its targets.
    Locks {
        window: u32,
        first: u8,
        end: u8,
        exclusive: bool,
    },
}

/// The slot of a lock that an unlock gives back.
#[inline(always)]
fn unlock_slot(window: u32, target: u8, exclusive: bool, held: Option<Lock>) -> Option<Slot>
    ensures { result ≡ unlock_slot_of window target exclusive held }
{
    match held {
        None => None,
        Some(kind) => {
            if exclusive && kind == Lock::Shared {
                None
            } else {
                Some(Slot::Unlock {
                    window,
                    target,
                    exclusive,
                })
            }
        }
    }
}

impl Plan {
    /// Up to which index there may be slots: no index from it on has one.
    pub(crate) fn end(&self) -> u8
        ensures most { result ≤ 32 }
        ensures rest { (at : ℕ) → result ≤ at → at < 32 → plan_slot self.now at ≡ None }
    {
        match self {
            Plan::Nothing => 0,
            Plan::One(_) => 1,
            Plan::Posts { .. } => 16,
            Plan::Starts { .. } => 16,
            Plan::Completes { .. } => 16,
            Plan::Waits { .. } => 16,
            Plan::Unlocks { .. } => 32,
            Plan::Locks { end, .. } => (*end).min(32),
        }
    }

    /// The slot at an index.
    #[inline(always)]
    pub(crate) fn slot(&self, at: u8) -> Option<Slot>
        requires { at < 32 }
        ensures { result ≡ plan_slot self.now at }
    {
        let index = at as usize;
        match self {
            Plan::Nothing => None,
            Plan::One(slot) => { if at == 0 { Some(*slot) } else { None } }
            Plan::Posts {
                window,
                from,
                named,
                numbers,
            } => {
                if at < 16 && named[index] {
                    let number = numbers[index];
                    Some(Slot::Post {
                        window: *window,
                        from: *from,
                        to: at,
                        number,
                    })
                } else {
                    None
                }
            }
            Plan::Starts {
                window,
                to,
                named,
                numbers,
            } => {
                if at < 16 && named[index] {
                    let number = numbers[index];
                    Some(Slot::Post {
                        window: *window,
                        from: at,
                        to: *to,
                        number,
                    })
                } else {
                    None
                }
            }
            Plan::Completes {
                window,
                from,
                numbers,
            } => {
                if at < 16 && numbers[index] > 0 {
                    let number = numbers[index];
                    Some(Slot::Complete {
                        window: *window,
                        from: *from,
                        to: at,
                        number,
                    })
                } else {
                    None
                }
            }
            Plan::Waits {
                window,
                to,
                named,
                numbers,
            } => {
                if at < 16 && named[index] {
                    let number = numbers[index];
                    Some(Slot::Complete {
                        window: *window,
                        from: at,
                        to: *to,
                        number,
                    })
                } else {
                    None
                }
            }
            Plan::Unlocks { window, held } => {
                if at < 16 {
                    unlock_slot(*window, at, false, held[index])
                } else {
                    unlock_slot(*window, at - 16, true, held[index - 16])
                }
            }
            Plan::Locks {
                window,
                first,
                end,
                exclusive,
            } => {
                if *first <= at && at < *end {
                    Some(Slot::Unlock {
                        window: *window,
                        target: at,
                        exclusive: *exclusive,
                    })
                } else {
                    None
                }
            }
        }
    }
}
