//! Copies of calls.
ghost use Rattle.std.specs.Prelude.{◌≡◌, Bool, true, false, [], List, ℕ, IfOk};
ghost use Rattle.rma_types.specs.KeptCalls.{kept_call, copy_of, values_of};

use crate::calls::Call;
use crate::items::{Bits, Group};
use std::alloc::{AllocError, Global};

/// A copy of the values, or of none of them.
fn copied_values(alloc: Global, values: &Bits, whole: bool) -> Result<Bits, AllocError>
    ensures { IfOk result (λ copy. copy ≡ values_of whole values.now) }
{
    if whole {
        Bits::from_slice(alloc, values.as_slice())
    } else {
        Ok(Bits::new(alloc))
    }
}

impl Call {
    /// The call once more.
    pub fn copy(&self, alloc: Global) -> Result<Call, AllocError>
        ensures { IfOk result (λ copy. copy ≡ self.now) }
    {
        self.copied(alloc, true)
    }

    /// The call once more, with its list of values left out.
    pub fn copy_without_values(&self, alloc: Global) -> Result<Call, AllocError>
        ensures { IfOk result (λ copy. copy ≡ kept_call self.now) }
    {
        self.copied(alloc, false)
    }

    fn copied(&self, alloc: Global, whole: bool) -> Result<Call, AllocError>
        ensures { IfOk result (λ copy. copy ≡ copy_of whole self.now) }
    {
        match self {
            Call::Allocate { win, bytes, unit } => Ok(Call::Allocate {
                win: *win,
                bytes: *bytes,
                unit: *unit,
            }),
            Call::Create {
                win,
                base,
                bytes,
                unit,
            } => Ok(Call::Create {
                win: *win,
                base: *base,
                bytes: *bytes,
                unit: *unit,
            }),
            Call::Dynamic { win } => Ok(Call::Dynamic { win: *win }),
            Call::Free { win } => Ok(Call::Free { win: *win }),
            Call::Attach { win, base, bytes } => Ok(Call::Attach {
                win: *win,
                base: *base,
                bytes: *bytes,
            }),
            Call::Detach { win, base } => Ok(Call::Detach {
                win: *win,
                base: *base,
            }),
            Call::Fence { win, asserts } => Ok(Call::Fence {
                win: *win,
                asserts: *asserts,
            }),
            Call::Post {
                win,
                group,
                asserts,
            } => Ok(Call::Post {
                win: *win,
                group: Group::from_slice(alloc, group.as_slice())?,
                asserts: *asserts,
            }),
            Call::Start {
                win,
                group,
                asserts,
            } => Ok(Call::Start {
                win: *win,
                group: Group::from_slice(alloc, group.as_slice())?,
                asserts: *asserts,
            }),
            Call::Complete { win } => Ok(Call::Complete { win: *win }),
            Call::WaitWin { win } => Ok(Call::WaitWin { win: *win }),
            Call::TestWin { win } => Ok(Call::TestWin { win: *win }),
            Call::LockOne {
                win,
                kind,
                target,
                asserts,
            } => Ok(Call::LockOne {
                win: *win,
                kind: *kind,
                target: *target,
                asserts: *asserts,
            }),
            Call::Unlock { win, target } => Ok(Call::Unlock {
                win: *win,
                target: *target,
            }),
            Call::LockAll { win, asserts } => Ok(Call::LockAll {
                win: *win,
                asserts: *asserts,
            }),
            Call::UnlockAll { win } => Ok(Call::UnlockAll { win: *win }),
            Call::Flush { win, target } => Ok(Call::Flush {
                win: *win,
                target: *target,
            }),
            Call::FlushAll { win } => Ok(Call::FlushAll { win: *win }),
            Call::FlushLocal { win, target } => Ok(Call::FlushLocal {
                win: *win,
                target: *target,
            }),
            Call::FlushLocalAll { win } => Ok(Call::FlushLocalAll { win: *win }),
            Call::Sync { win } => Ok(Call::Sync { win: *win }),
            Call::Barrier => Ok(Call::Barrier),
            Call::Put {
                req,
                win,
                target,
                disp,
                dtype,
                values,
            } => Ok(Call::Put {
                req: *req,
                win: *win,
                target: *target,
                disp: *disp,
                dtype: *dtype,
                values: copied_values(alloc, values, whole)?,
            }),
            Call::Get {
                req,
                win,
                target,
                disp,
                dtype,
                count,
            } => Ok(Call::Get {
                req: *req,
                win: *win,
                target: *target,
                disp: *disp,
                dtype: *dtype,
                count: *count,
            }),
            Call::Acc {
                req,
                win,
                target,
                disp,
                dtype,
                op,
                values,
            } => Ok(Call::Acc {
                req: *req,
                win: *win,
                target: *target,
                disp: *disp,
                dtype: *dtype,
                op: *op,
                values: copied_values(alloc, values, whole)?,
            }),
            Call::GetAcc {
                req,
                win,
                target,
                disp,
                dtype,
                op,
                values,
            } => Ok(Call::GetAcc {
                req: *req,
                win: *win,
                target: *target,
                disp: *disp,
                dtype: *dtype,
                op: *op,
                values: copied_values(alloc, values, whole)?,
            }),
            Call::Fop {
                win,
                target,
                disp,
                dtype,
                op,
                value,
            } => Ok(Call::Fop {
                win: *win,
                target: *target,
                disp: *disp,
                dtype: *dtype,
                op: *op,
                value: *value,
            }),
            Call::Cas {
                win,
                target,
                disp,
                dtype,
                compare,
                new,
            } => Ok(Call::Cas {
                win: *win,
                target: *target,
                disp: *disp,
                dtype: *dtype,
                compare: *compare,
                new: *new,
            }),
            Call::Load {
                win,
                disp,
                dtype,
                count,
            } => Ok(Call::Load {
                win: *win,
                disp: *disp,
                dtype: *dtype,
                count: *count,
            }),
            Call::Store {
                win,
                disp,
                dtype,
                values,
            } => Ok(Call::Store {
                win: *win,
                disp: *disp,
                dtype: *dtype,
                values: copied_values(alloc, values, whole)?,
            }),
            Call::WaitReq { req } => Ok(Call::WaitReq { req: *req }),
            Call::TestReq { req } => Ok(Call::TestReq { req: *req }),
        }
    }
}
