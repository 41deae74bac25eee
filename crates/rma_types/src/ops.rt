//! The predefined operations of accumulates.
ghost use Rattle.std.specs.Prelude.{◌≡◌};
ghost use Rattle.rma_types.specs.Datatypes.{is_allowed};

use crate::dtypes::Dtype;

/// A predefined operation of an accumulate (MPI 3.1, sections 5.9.2 and 11.3.4).
#[derive(Clone, Copy, Debug, PartialEq, Eq)]
pub enum Op {
    Replace,
    NoOp,
    Max,
    Min,
    /// Wraps modulo 2 to the number of bits.
    Sum,
    /// Wraps modulo 2 to the number of bits.
    Prod,
    Land,
    Band,
    Lor,
    Bor,
    Lxor,
    Bxor,
}

impl Op {
    /// Whether an accumulate may use the operation on the datatype. `reading` is true for the
    /// accumulates that fetch: `getacc`, `rgetacc` and `fop`.
    pub fn allowed(self, dtype: Dtype, reading: bool) -> bool
        ensures { result ≡ is_allowed self dtype reading }
    {
        match self {
            Op::Replace | Op::Band | Op::Bor | Op::Bxor => true,
            Op::NoOp => reading,
            Op::Max | Op::Min | Op::Sum | Op::Prod | Op::Land | Op::Lor | Op::Lxor => {
                dtype != Dtype::Byte
            }
        }
    }
}
