//! Where the bytes of a transfer lie: MPI 3.1, sections 11.2 and 11.3.
ghost use Rattle.std.specs.Prelude.{◌≡◌, ◌+◌, ◌*◌, ◌<◌, ◌≤◌, ◌^◌, pos};
ghost use Rattle.rma_types.specs.Datatypes.{size_of};
ghost use Rattle.call_rules.specs.Pieces.{piece_at};
ghost use Rattle.rank_rules.specs.WindowTests.{address_in, is_misplaced as is_misplaced_in};
ghost use Rattle.rank_rules.specs.WindowTests.{passes_end as passes_end_of};
ghost use Rattle.window_regions.specs.Places.{place_in, address_on, elements_in as elements_in_part};

use crate::numbers::natural;
use crate::window::no_part;
use call_rules::Piece;
use rma_types::{Class, Dtype, Layout, Part};

/// The bytes of a rank's memory from an address on.
#[derive(Clone, Copy, Debug, PartialEq, Eq)]
pub struct Range {
    /// The address of the first byte.
    pub lo: u32,
    /// The number of bytes.
    pub len: u32,
}

/// The address of a displacement in a part, which counts as 0 where it is below 0.
pub fn address_of(part: Part, disp: i32) -> u64
    ensures value { result ≡ address_in part disp }
    ensures small { result < 2 ^ 63 + 2 ^ 32 }
{
    u64::from(part.base) + u64::from(natural(disp)) * u64::from(part.unit)
}

/// Whether the displacement is below 0, or its address is not a multiple of the element's size.
pub fn is_misplaced(part: Part, disp: i32, dtype: Dtype) -> bool
    ensures { result ≡ is_misplaced_in part disp dtype }
{
    disp < 0 || address_of(part, disp) % u64::from(dtype.size()) != 0
}

/// Whether so many bytes from the displacement on end past the end of the part.
pub fn passes_end(part: Part, disp: i32, bytes: u32) -> bool
    ensures { result ≡ passes_end_of part disp bytes }
{
    u64::from(part.base) + u64::from(part.bytes) < address_of(part, disp) + u64::from(bytes)
}

/// So many elements, at most 256, from a displacement in a part on, whose address is below 2 to 32.
pub fn elements_in(part: Part, disp: i32, dtype: Dtype, count: u32) -> Range
    requires few { count ≤ 256 }
    requires small { address_in part disp < 2 ^ 32 }
    ensures { result ≡ elements_in_part part disp dtype count }
{
    Range {
        lo: address_of(part, disp) as u32,
        len: count * dtype.size(),
    }
}

/// Where so many elements lie from a displacement on, in a part that is not of a dynamic window.
///
/// MPI_ERR_DISP where the displacement is below 0 or the address is no multiple of the element's size; else
/// MPI_ERR_RMA_RANGE where the elements end past the end of the part.
pub fn place(part: Part, disp: i32, dtype: Dtype, count: u32) -> Result<Range, Class>
    requires few { count ≤ 256 }
    requires end { part.base + part.bytes < 2 ^ 32 }
    ensures { result ≡ place_in part disp dtype count }
{
    if is_misplaced(part, disp, dtype) {
        Err(Class::Disp)
    } else if passes_end(part, disp, count * dtype.size()) {
        Err(Class::Range)
    } else {
        Ok(elements_in(part, disp, dtype, count))
    }
}

/// Where so many elements lie in a dynamic window, whose displacements are addresses (MPI 3.1, section 11.2.4).
///
/// MPI_ERR_DISP where the displacement is below 0 or no multiple of the element's size. Whether the bytes are attached
/// is not tested here. The count is at most 256.
pub fn address(disp: i32, dtype: Dtype, count: u32) -> Result<Range, Class>
    requires { count ≤ 256 }
    ensures { result ≡ address_on disp dtype count }
{
    let part = no_part();
    if is_misplaced(part, disp, dtype) {
        Err(Class::Disp)
    } else {
        Ok(elements_in(part, disp, dtype, count))
    }
}

/// Where an element of an access lies: its cell, of 4 bytes, and its first byte in the cell.
///
/// The access begins at `lo` of the target's memory. The element's cell is one of the layout.
pub fn piece(layout: &Layout, target: u8, lo: u32, dtype: Dtype, element: u32) -> Piece
    requires { (piece_at layout.now target (lo + element * size_of dtype)).cell < 2 ^ 32 }
    ensures { result ≡ piece_at layout.now target (lo + element * size_of dtype) }
{
    let address = u64::from(lo) + u64::from(element) * u64::from(dtype.size());
    let first_cell = match layout.parts.get(target as usize) {
        Some(part) => part.first_cell,
        None => 0,
    };
    Piece {
        cell: (u64::from(first_cell) + address / 4) as u32,
        first_byte: (address % 4) as u8,
    }
}
