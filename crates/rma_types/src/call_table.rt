//! The table of all calls.
ghost use Rattle.std.specs.Prelude.{◌≡◌};
ghost use Rattle.rma_types.specs.Actions.{action_of, target_of, put_transfer, get_transfer, accumulate_transfer};

use crate::accesses::Kind;
use crate::actions::{Action, Creation, Operands, Ranks, Synchronisation, Target, Transfer};
use crate::calls::{Call, Flavor, Lock};
use crate::dtypes::Dtype;
use crate::ops::Op;
use std::slice;

fn target(named: Option<i32>) -> Target
    ensures { result ≡ target_of named }
{
    match named {
        None => Target::Null,
        Some(rank) => Target::Named(rank),
    }
}

/// Where a transfer goes: its window, whose memory, and the displacement, in units of the window.
#[derive(Clone, Copy)]
struct Place {
    request: Option<u8>,
    win: u8,
    target: Target,
    disp: i32,
    dtype: Dtype,
}

impl Place {
    fn put<'a>(self, kind: Kind, values: &'a [u64]) -> Transfer<'a>
        ensures { result ≡ put_transfer self.request self.win self.target self.disp self.dtype
            kind values.now }
    {
        Transfer {
            request: self.request,
            win: self.win,
            target: self.target,
            disp: self.disp,
            dtype: self.dtype,
            count: values.len() as i64,
            kind,
            fetches: false,
            op: Op::Replace,
            operands: Operands::new(values),
            compare: None,
        }
    }

    fn get<'a>(self, kind: Kind, count: i32) -> Transfer<'a>
        ensures { result ≡ get_transfer self.request self.win self.target self.disp self.dtype
            kind count }
    {
        Transfer {
            request: self.request,
            win: self.win,
            target: self.target,
            disp: self.disp,
            dtype: self.dtype,
            count: i64::from(count),
            kind,
            fetches: true,
            op: Op::NoOp,
            operands: Operands::none(),
            compare: None,
        }
    }

    fn accumulate<'a>(self, op: Op, fetches: bool, values: &'a [u64]) -> Transfer<'a>
        ensures { result ≡ accumulate_transfer self.request self.win self.target self.disp
            self.dtype op fetches values.now }
    {
        Transfer {
            request: self.request,
            win: self.win,
            target: self.target,
            disp: self.disp,
            dtype: self.dtype,
            count: values.len() as i64,
            kind: Kind::Acc {
                op,
                dtype: self.dtype,
            },
            fetches,
            op,
            operands: Operands::new(values),
            compare: None,
        }
    }
}

impl Call {
    /// What the call is.
    pub fn action(&self) -> Action<'_>
        ensures { result ≡ action_of self.now }
    {
        match self {
            Call::Allocate { win, bytes, unit } => Action::Creates(Creation {
                win: *win,
                flavor: Flavor::Allocate,
                base: 0,
                bytes: *bytes,
                unit: *unit,
            }),
            Call::Create {
                win,
                base,
                bytes,
                unit,
            } => Action::Creates(Creation {
                win: *win,
                flavor: Flavor::Create,
                base: *base,
                bytes: *bytes,
                unit: *unit,
            }),
            Call::Dynamic { win } => Action::Creates(Creation {
                win: *win,
                flavor: Flavor::Dynamic,
                base: 0,
                bytes: 0,
                unit: 1,
            }),
            Call::Free { win } => Action::Frees { win: *win },
            Call::Attach { win, base, bytes } => Action::Attaches {
                win: *win,
                base: *base,
                bytes: *bytes,
            },
            Call::Detach { win, base } => Action::Detaches {
                win: *win,
                base: *base,
            },
            Call::Fence { win, asserts } => {
                Action::Synchronises(*win, Synchronisation::Fences(*asserts))
            }
            Call::Post {
                win,
                group,
                asserts,
            } => Action::Synchronises(
                *win,
                Synchronisation::Posts(Ranks::new(group.as_slice()), *asserts),
            ),
            Call::Start {
                win,
                group,
                asserts,
            } => Action::Synchronises(
                *win,
                Synchronisation::Starts(Ranks::new(group.as_slice()), *asserts),
            ),
            Call::Complete { win } => Action::Synchronises(*win, Synchronisation::Completes),
            Call::WaitWin { win } => {
                Action::Synchronises(*win, Synchronisation::Waits { tests: false })
            }
            Call::TestWin { win } => {
                Action::Synchronises(*win, Synchronisation::Waits { tests: true })
            }
            Call::LockOne {
                win,
                kind,
                target,
                asserts,
            } => Action::Synchronises(*win, Synchronisation::Locks(*kind, Some(*target), *asserts)),
            Call::Unlock { win, target } => {
                Action::Synchronises(*win, Synchronisation::Unlocks(Some(*target)))
            }
            Call::LockAll { win, asserts } => Action::Synchronises(
                *win,
                Synchronisation::Locks(Lock::Shared, None, *asserts),
            ),
            Call::UnlockAll { win } => Action::Synchronises(*win, Synchronisation::Unlocks(None)),
            Call::Flush { win, target } => Action::Synchronises(
                *win,
                Synchronisation::Flushes {
                    target: Some(*target),
                    local: false,
                },
            ),
            Call::FlushAll { win } => Action::Synchronises(
                *win,
                Synchronisation::Flushes {
                    target: None,
                    local: false,
                },
            ),
            Call::FlushLocal { win, target } => Action::Synchronises(
                *win,
                Synchronisation::Flushes {
                    target: Some(*target),
                    local: true,
                },
            ),
            Call::FlushLocalAll { win } => Action::Synchronises(
                *win,
                Synchronisation::Flushes {
                    target: None,
                    local: true,
                },
            ),
            Call::Sync { win } => Action::Synchronises(*win, Synchronisation::Syncs),
            Call::Barrier => Action::Meets,
            Call::Put {
                req,
                win,
                target: named,
                disp,
                dtype,
                values,
            } => {
                let place = Place {
                    request: *req,
                    win: *win,
                    target: target(*named),
                    disp: *disp,
                    dtype: *dtype,
                };
                Action::Moves(place.put(Kind::Put, values.as_slice()))
            }
            Call::Get {
                req,
                win,
                target: named,
                disp,
                dtype,
                count,
            } => {
                let place = Place {
                    request: *req,
                    win: *win,
                    target: target(*named),
                    disp: *disp,
                    dtype: *dtype,
                };
                Action::Moves(place.get(Kind::Get, *count))
            }
            Call::Acc {
                req,
                win,
                target: named,
                disp,
                dtype,
                op,
                values,
            } => {
                let place = Place {
                    request: *req,
                    win: *win,
                    target: target(*named),
                    disp: *disp,
                    dtype: *dtype,
                };
                Action::Moves(place.accumulate(*op, false, values.as_slice()))
            }
            Call::GetAcc {
                req,
                win,
                target: named,
                disp,
                dtype,
                op,
                values,
            } => {
                let place = Place {
                    request: *req,
                    win: *win,
                    target: target(*named),
                    disp: *disp,
                    dtype: *dtype,
                };
                Action::Moves(place.accumulate(*op, true, values.as_slice()))
            }
            Call::Fop {
                win,
                target: named,
                disp,
                dtype,
                op,
                value,
            } => {
                let place = Place {
                    request: None,
                    win: *win,
                    target: target(*named),
                    disp: *disp,
                    dtype: *dtype,
                };
                Action::Moves(place.accumulate(*op, true, slice::from_ref(value)))
            }
            Call::Cas {
                win,
                target: named,
                disp,
                dtype,
                compare,
                new,
            } => Action::Moves(Transfer {
                request: None,
                win: *win,
                target: target(*named),
                disp: *disp,
                dtype: *dtype,
                count: 1,
                kind: Kind::Cas { dtype: *dtype },
                fetches: true,
                op: Op::Replace,
                operands: Operands::one(new),
                compare: Some(*compare),
            }),
            Call::Load {
                win,
                disp,
                dtype,
                count,
            } => {
                let place = Place {
                    request: None,
                    win: *win,
                    target: Target::Own,
                    disp: *disp,
                    dtype: *dtype,
                };
                Action::Moves(place.get(Kind::Load, *count))
            }
            Call::Store {
                win,
                disp,
                dtype,
                values,
            } => {
                let place = Place {
                    request: None,
                    win: *win,
                    target: Target::Own,
                    disp: *disp,
                    dtype: *dtype,
                };
                Action::Moves(place.put(Kind::Store, values.as_slice()))
            }
            Call::WaitReq { req } | Call::TestReq { req } => Action::EndsRequest { req: *req },
        }
    }
}
