//! The words of datatypes, operations, kinds of locks and assertions.
ghost use Rattle.std.specs.Prelude.{◌≡◌};
ghost use Rattle.script_language.specs.Words.{dtype_text, op_text, lock_text, assertion_text};
ghost use Rattle.script_language.specs.Words.{all_dtypes, all_ops, all_locks, all_assertions};

use crate::places::Assertion;
use rma_types::{Dtype, Lock, Op};

const DTYPES: [Dtype; 7] = [
    Dtype::Int8,
    Dtype::Int16,
    Dtype::Int32,
    Dtype::Uint8,
    Dtype::Uint16,
    Dtype::Uint32,
    Dtype::Byte,
];

const OPS: [Op; 12] = [
    Op::Replace,
    Op::NoOp,
    Op::Max,
    Op::Min,
    Op::Sum,
    Op::Prod,
    Op::Land,
    Op::Band,
    Op::Lor,
    Op::Bor,
    Op::Lxor,
    Op::Bxor,
];

const LOCKS: [Lock; 2] = [Lock::Shared, Lock::Exclusive];

const ASSERTIONS: [Assertion; 5] = [
    Assertion::NoCheck,
    Assertion::NoStore,
    Assertion::NoPut,
    Assertion::NoPrecede,
    Assertion::NoSucceed,
];

/// The datatypes that a text can name.
pub fn dtypes() -> &'static [Dtype]
    ensures { result.now ≡ all_dtypes }
{
    &DTYPES
}

/// The operations that a text can name.
pub fn ops() -> &'static [Op]
    ensures { result.now ≡ all_ops }
{
    &OPS
}

/// The kinds of locks.
pub fn locks() -> &'static [Lock]
    ensures { result.now ≡ all_locks }
{
    &LOCKS
}

/// The assertions, in the order in which they are printed.
pub fn assertions() -> &'static [Assertion]
    ensures { result.now ≡ all_assertions }
{
    &ASSERTIONS
}

/// The word of a datatype (MPI 3.1, section 3.2.2).
pub fn dtype_word(dtype: Dtype) -> &'static str
    ensures { result.now ≡ dtype_text dtype }
{
    match dtype {
        Dtype::Int8 => "int8",
        Dtype::Int16 => "int16",
        Dtype::Int32 => "int32",
        Dtype::Uint8 => "uint8",
        Dtype::Uint16 => "uint16",
        Dtype::Uint32 => "uint32",
        Dtype::Byte => "byte",
    }
}

/// The word of an operation (MPI 3.1, sections 5.9.2 and 11.3.4).
pub fn op_word(op: Op) -> &'static str
    ensures { result.now ≡ op_text op }
{
    match op {
        Op::Replace => "replace",
        Op::NoOp => "no_op",
        Op::Max => "max",
        Op::Min => "min",
        Op::Sum => "sum",
        Op::Prod => "prod",
        Op::Land => "land",
        Op::Band => "band",
        Op::Lor => "lor",
        Op::Bor => "bor",
        Op::Lxor => "lxor",
        Op::Bxor => "bxor",
    }
}

/// The word of a kind of lock (MPI 3.1, section 11.5.3).
pub fn lock_word(lock: Lock) -> &'static str
    ensures { result.now ≡ lock_text lock }
{
    match lock {
        Lock::Shared => "shared",
        Lock::Exclusive => "exclusive",
    }
}

/// The word of an assertion (MPI 3.1, section 11.5.5).
pub fn assertion_word(assertion: Assertion) -> &'static str
    ensures { result.now ≡ assertion_text assertion }
{
    match assertion {
        Assertion::NoCheck => "nocheck",
        Assertion::NoStore => "nostore",
        Assertion::NoPut => "noput",
        Assertion::NoPrecede => "noprecede",
        Assertion::NoSucceed => "nosucceed",
    }
}
