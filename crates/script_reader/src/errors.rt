//! Why reading stopped.
ghost use Rattle.std.specs.Prelude.{◌≡◌};
ghost use Rattle.script_reader.specs.declared.errors.ReadError.TheVariants.{Memory, Refused};

use script_language::FaultKind;
use std::alloc::{AllocError, AllocFailed};

/// Memory ran out, or the text has a fault.
#[derive(Clone, Copy, Debug, PartialEq, Eq)]
pub enum ReadError {
    Memory,
    Refused(FaultKind),
}

impl From<FaultKind> for ReadError {
    ghost from_gives = { λ kind e. e ≡ Refused kind };

    fn from(kind: FaultKind) -> ReadError {
        ReadError::Refused(kind)
    }
}

impl From<AllocError> for ReadError {
    ghost from_gives = { λ _ e. e ≡ Memory };

    fn from(_error: AllocError) -> ReadError {
        ReadError::Memory
    }
}

impl<T: Drop> From<AllocFailed<T>> for ReadError {
    ghost from_gives = { λ _ e. e ≡ Memory };

    fn from(_error: AllocFailed<T>) -> ReadError {
        ReadError::Memory
    }
}
