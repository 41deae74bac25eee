//! The lines about the memory of a rank.
ghost use Rattle.std.specs.Prelude.{◌≡◌, ◌++◌, ◌<◌, ◌^◌, ◌*◌, ◌==◌, length, take, drop, OnOk};
ghost use Rattle.std.specs.List.{flat_map, list_all};
ghost use Rattle.std.specs.String.{string_bytes};
ghost use Rattle.run_texts.specs.Report.{byte_hex, cell_hex, memory_line, memory_lines, cells_in, cells_at};

use rma_types::{Layout, MemoryPart};
use std::alloc::AllocError;

/// Writes two lower-case hexadecimal digits.
#[tactic(auto, using(std::proofs::lemmas::Fmt::hex_byte))]
fn write_byte(text: &mut String, byte: u32) -> Result<(), AllocError>
    requires { byte < 256 }
    ensures { OnOk result (string_bytes text.new ≡ string_bytes text.old ++ byte_hex byte) }
{
    write!(text, "{byte:02x}")
}

/// Writes the 4 bytes of a cell, the lowest first.
fn write_cell(text: &mut String, cell: u32) -> Result<(), AllocError>
    ensures { OnOk result (string_bytes text.new ≡ string_bytes text.old ++ cell_hex cell) }
{
    write_byte(text, cell % 256)?;
    write_byte(text, cell / 256 % 256)?;
    write_byte(text, cell / 65_536 % 256)?;
    write_byte(text, cell / 16_777_216 % 256)
}

/// Writes the bytes of the cells.
fn write_cells(text: &mut String, cells: &[u32]) -> Result<(), AllocError>
    ensures { OnOk result (string_bytes text.new ≡ string_bytes text.old ++
        flat_map cell_hex cells.now) }
{
    for cell in cells {
        write_cell(text, *cell)?;
    }
    Ok(())
}

/// Whether no cell has a byte that is not 0.
fn is_blank(cells: &[u32]) -> bool
    ensures { result ≡ list_all (λ cell. cell == 0) cells.now }
{
    cells.iter().all(|cell| *cell == 0)
}

/// Writes the line of some cells from an address on, where one of them is not 0.
fn write_line(text: &mut String, rank: u8, address: usize, cells: &[u32]) -> Result<(), AllocError>
    ensures { OnOk result (string_bytes text.new ≡ string_bytes text.old ++
        memory_line rank address cells.now) }
{
    if is_blank(cells) {
        return Ok(());
    }
    write!(text, "memory {rank} {address} ")?;
    write_cells(text, cells)?;
    text.push_str("\n")?;
    Ok(())
}

/// The cells of a part of the memory.
fn cells_of_part<'a>(memory: &'a [u32], part: &MemoryPart) -> &'a [u32]
    ensures value { result.now ≡ cells_in memory.now part.now }
    ensures short { length result.now < 2 ^ 32 }
{
    let first = (part.first_cell as usize).min(memory.len());
    let rest = &memory[first..];
    let count = (part.bytes as usize / 4).min(rest.len());
    &rest[..count]
}

/// The cells of a rank's memory.
pub(crate) fn cells_of<'a>(layout: &Layout, memory: &'a [u32], rank: usize) -> &'a [u32]
    ensures value { result.now ≡ cells_at layout.now memory.now rank }
    ensures short { length result.now < 2 ^ 32 }
{
    match layout.parts.get(rank) {
        None => &[],
        Some(part) => cells_of_part(memory, part),
    }
}

/// Writes the line of the piece of 8 cells of this number.
fn write_piece(text: &mut String, rank: u8, cells: &[u32], piece: usize) -> Result<(), AllocError>
    requires piece { 8 * piece < length cells.now }
    requires short { length cells.now < 2 ^ 32 }
    ensures { OnOk result
        (string_bytes text.new
        ≡ string_bytes text.old ++ memory_line rank (32 * piece) (take 8 (drop (8 * piece) cells.now))) }
{
    let rest = &cells[8 * piece..];
    let count = rest.len().min(8);
    write_line(text, rank, 32 * piece, &rest[..count])
}

/// Writes the lines of a rank's memory.
pub(crate) fn write_memory(text: &mut String, rank: u8, cells: &[u32]) -> Result<(), AllocError>
    requires { length cells.now < 2 ^ 32 }
    ensures { OnOk result (string_bytes text.new ≡ string_bytes text.old ++
        memory_lines rank cells.now) }
{
    let count = (cells.len() + 7) / 8;
    for piece in 0..count {
        write_piece(text, rank, cells, piece)?;
    }
    Ok(())
}
