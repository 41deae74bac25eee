//! What the line of a call says.
ghost use Rattle.std.specs.Prelude.{◌≡◌, unwrap_or};
ghost use Rattle.script_language.specs.declared.fields.Fields.{Fields};
ghost use Rattle.script_language.specs.Calls.{no_fields, fields_of};
ghost use Rattle.script_printer.specs.Printing.{fields_said};

use crate::said::{NO_ASSERTS, NOTHING, Said};
use rma_types::{Asserts, Call, Dtype, Lock, Op};

/// What a call says of a window's name and of a range of memory.
fn range(win: u8, base: i32, bytes: i32, unit: i32) -> Said<'static>
    ensures { let fields : Fields = record no_fields {
      win = win;
      base = base;
      bytes = bytes;
      unit = unit;
    } in fields_said result ≡ fields }
{
    Said {
        win,
        base,
        bytes,
        unit,
        ..NOTHING
    }
}

/// What a synchronisation call says.
fn epoch(win: u8, lock: Lock, peer: i32, asserts: Asserts) -> Said<'static>
    ensures { let fields : Fields = record no_fields {
      win = win;
      lock = lock;
      peer = peer;
      asserts = asserts;
    } in fields_said result ≡ fields }
{
    Said {
        win,
        lock,
        peer,
        asserts,
        ..NOTHING
    }
}

/// What a `post` and a `start` say.
fn exposure<'a>(win: u8, group: &'a [i32], asserts: Asserts) -> Said<'a>
    ensures { let fields : Fields = record no_fields {
      win = win;
      group = group.now;
      asserts = asserts;
    } in fields_said result ≡ fields }
{
    Said {
        win,
        group,
        asserts,
        ..NOTHING
    }
}

/// What a transfer of values says.
fn update<'a>(
    req: Option<u8>,
    win: u8,
    target: Option<i32>,
    disp: i32,
    dtype: Dtype,
    op: Op,
    values: &'a [u64],
) -> Said<'a>
    ensures { let fields : Fields = record no_fields {
      req = unwrap_or req 0;
      win = win;
      target = target;
      disp = disp;
      dtype = dtype;
      op = op;
      values = values.now;
    } in fields_said result ≡ fields }
{
    Said {
        req: req.unwrap_or(0),
        win,
        target,
        disp,
        dtype,
        op,
        values,
        ..NOTHING
    }
}

/// What a transfer that only fetches says.
fn fetch(
    req: Option<u8>,
    win: u8,
    target: Option<i32>,
    disp: i32,
    dtype: Dtype,
    count: i32,
) -> Said<'static>
    ensures { let fields : Fields = record no_fields {
      req = unwrap_or req 0;
      win = win;
      target = target;
      disp = disp;
      dtype = dtype;
      count = count;
    } in fields_said result ≡ fields }
{
    Said {
        req: req.unwrap_or(0),
        win,
        target,
        disp,
        dtype,
        count,
        ..NOTHING
    }
}

/// What a transfer of one value says.
fn single(
    win: u8,
    target: Option<i32>,
    disp: i32,
    dtype: Dtype,
    op: Op,
    compare: u64,
    value: u64,
) -> Said<'static>
    ensures { let fields : Fields = record no_fields {
      win = win;
      target = target;
      disp = disp;
      dtype = dtype;
      op = op;
      compare = compare;
      value = value;
    } in fields_said result ≡ fields }
{
    Said {
        win,
        target,
        disp,
        dtype,
        op,
        compare,
        value,
        ..NOTHING
    }
}

/// What the end of a request says.
fn request(req: u8) -> Said<'static>
    ensures { let fields : Fields = record no_fields { req = req } in fields_said result ≡ fields }
{
    Said { req, ..NOTHING }
}

/// What the line of a call says.
pub(crate) fn said(call: &Call) -> Said<'_>
    ensures { fields_said result ≡ fields_of call.now }
{
    match call {
        Call::Allocate { win, bytes, unit } => range(*win, 0, *bytes, *unit),
        Call::Create {
            win,
            base,
            bytes,
            unit,
        } => range(*win, *base, *bytes, *unit),
        Call::Dynamic { win } => range(*win, 0, 0, 0),
        Call::Free { win } => range(*win, 0, 0, 0),
        Call::Attach { win, base, bytes } => range(*win, *base, *bytes, 0),
        Call::Detach { win, base } => range(*win, *base, 0, 0),
        Call::Fence { win, asserts } => epoch(*win, Lock::Shared, 0, *asserts),
        Call::Post {
            win,
            group,
            asserts,
        } => exposure(*win, group.as_slice(), *asserts),
        Call::Start {
            win,
            group,
            asserts,
        } => exposure(*win, group.as_slice(), *asserts),
        Call::Complete { win } => range(*win, 0, 0, 0),
        Call::WaitWin { win } => range(*win, 0, 0, 0),
        Call::TestWin { win } => range(*win, 0, 0, 0),
        Call::LockOne {
            win,
            kind,
            target,
            asserts,
        } => epoch(*win, *kind, *target, *asserts),
        Call::Unlock { win, target } => epoch(*win, Lock::Shared, *target, NO_ASSERTS),
        Call::LockAll { win, asserts } => epoch(*win, Lock::Shared, 0, *asserts),
        Call::UnlockAll { win } => range(*win, 0, 0, 0),
        Call::Flush { win, target } => epoch(*win, Lock::Shared, *target, NO_ASSERTS),
        Call::FlushAll { win } => range(*win, 0, 0, 0),
        Call::FlushLocal { win, target } => epoch(*win, Lock::Shared, *target, NO_ASSERTS),
        Call::FlushLocalAll { win } => range(*win, 0, 0, 0),
        Call::Sync { win } => range(*win, 0, 0, 0),
        Call::Barrier => NOTHING,
        Call::Put {
            req,
            win,
            target,
            disp,
            dtype,
            values,
        } => update(
            *req,
            *win,
            *target,
            *disp,
            *dtype,
            Op::Replace,
            values.as_slice(),
        ),
        Call::Get {
            req,
            win,
            target,
            disp,
            dtype,
            count,
        } => fetch(*req, *win, *target, *disp, *dtype, *count),
        Call::Acc {
            req,
            win,
            target,
            disp,
            dtype,
            op,
            values,
        } => update(*req, *win, *target, *disp, *dtype, *op, values.as_slice()),
        Call::GetAcc {
            req,
            win,
            target,
            disp,
            dtype,
            op,
            values,
        } => update(*req, *win, *target, *disp, *dtype, *op, values.as_slice()),
        Call::Fop {
            win,
            target,
            disp,
            dtype,
            op,
            value,
        } => single(*win, *target, *disp, *dtype, *op, 0, *value),
        Call::Cas {
            win,
            target,
            disp,
            dtype,
            compare,
            new,
        } => single(*win, *target, *disp, *dtype, Op::Replace, *compare, *new),
        Call::Load {
            win,
            disp,
            dtype,
            count,
        } => fetch(None, *win, None, *disp, *dtype, *count),
        Call::Store {
            win,
            disp,
            dtype,
            values,
        } => update(
            None,
            *win,
            None,
            *disp,
            *dtype,
            Op::Replace,
            values.as_slice(),
        ),
        Call::WaitReq { req } => request(*req),
        Call::TestReq { req } => request(*req),
    }
}
