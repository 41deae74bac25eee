//! An element of an access: where it lies, and what becomes of it.
ghost use Rattle.std.specs.Prelude.{◌≡◌, ◌^◌, ◌↔◌, IsTrue};
ghost use Rattle.call_rules.specs.Elements.{Fits};
ghost use Rattle.call_rules.specs.Numbers.{patterns_of};

use rma_types::{Dtype, Op};

/// Where an element lies: its cell, of 4 bytes, and its first byte in the cell.
#[derive(Clone, Copy, Debug, PartialEq, Eq)]
pub struct Piece {
    pub cell: u32,
    pub first_byte: u8,
}

/// What an update does to one element of a cell (MPI 3.1, sections 11.3.1 and 11.3.4).
///
/// The element has the datatype's bytes from `first_byte` on. With `compare` given it changes only where its bit
/// pattern is `compare`.
#[derive(Clone, Copy, Debug, PartialEq, Eq)]
pub struct Change {
    pub first_byte: u8,
    pub dtype: Dtype,
    pub op: Op,
    pub operand: u32,
    pub compare: Option<u32>,
}

/// How many bit patterns an element of the datatype has.
pub fn patterns(dtype: Dtype) -> u64
    ensures { result ≡ patterns_of dtype }
{
    match dtype {
        Dtype::Int8 | Dtype::Uint8 | Dtype::Byte => 0x100,
        Dtype::Int16 | Dtype::Uint16 => 0x1_0000,
        Dtype::Int32 | Dtype::Uint32 => 0x1_0000_0000,
    }
}

impl Change {
    /// Whether the element lies in its cell, at a multiple of its size, and `operand` and `compare` are bit patterns of
    /// its datatype.
    pub fn fits(&self) -> bool
        ensures { IsTrue result ↔ Fits self.now }
    {
        let size = self.dtype.size();
        let patterns = patterns(self.dtype);
        let first_byte = u32::from(self.first_byte);
        first_byte % size == 0
            && first_byte + size <= 4
            && u64::from(self.operand) < patterns
            && match self.compare {
                Some(compare) => u64::from(compare) < patterns,
                None => true,
            }
    }
}
