//! What an update does to a cell.
ghost use Rattle.std.specs.Prelude.{◌≡◌, ◌+◌, ◌^◌, ◌<◌, ◌≤◌, FitsSigned};
ghost use Rattle.std.specs.Option.{ForSome};
ghost use Rattle.std.specs.Int.{w64};
ghost use Rattle.rma_types.specs.Datatypes.{size_of};
ghost use Rattle.call_rules.specs.Elements.{Fits, element_in as element_of, with_element as element_set};
ghost use Rattle.call_rules.specs.Elements.{truth as truth_of, combine as combined_of, meets as meets_of, next};
ghost use Rattle.call_rules.specs.Numbers.{number_of, pattern_of, patterns_of};

use call_rules::{Change, patterns};
use rma_types::{Dtype, Op};

/// How much a pattern at this byte of a cell counts: memory is little-endian.
fn weight(first_byte: u8) -> u64
    requires { first_byte < 4 }
    ensures { result ≡ 256 ^ first_byte }
{
    match first_byte {
        0 => 1,
        1 => 0x100,
        2 => 0x1_0000,
        _ => 0x100_0000,
    }
}

/// The bit pattern of the element that begins at this byte of a cell, 0 to 3.
pub fn element_in(bits: u32, first_byte: u8, dtype: Dtype) -> u32
    requires { first_byte < 4 }
    ensures { result ≡ element_of bits first_byte dtype }
{
    let above = match first_byte {
        0 => bits,
        1 => bits / 0x100,
        2 => bits / 0x1_0000,
        _ => bits / 0x100_0000,
    };
    match dtype.size() {
        1 => above % 0x100,
        2 => above % 0x1_0000,
        _ => above,
    }
}

/// The cell with another pattern in the element at this byte; all other bytes stay.
fn with_element(bits: u32, first_byte: u8, dtype: Dtype, pattern: u32) -> u32
    requires inside { first_byte + size_of dtype ≤ 4 }
    requires pattern { pattern < patterns_of dtype }
    ensures { result ≡ element_set bits first_byte dtype pattern }
{
    let weight = weight(first_byte);
    let old = u64::from(element_in(bits, first_byte, dtype)) * weight;
    let new = u64::from(pattern) * weight;
    (u64::from(bits) - old + new) as u32
}

/// The number that a bit pattern stands for: two's complement where the datatype is signed.
fn number(dtype: Dtype, pattern: u32) -> i128
    requires { pattern < patterns_of dtype }
    ensures value { result ≡ number_of dtype pattern }
    ensures fits { FitsSigned w64 result }
{
    let half = match dtype {
        Dtype::Int8 => 0x80,
        Dtype::Int16 => 0x8000,
        Dtype::Int32 => 0x8000_0000,
        Dtype::Uint8 | Dtype::Uint16 | Dtype::Uint32 | Dtype::Byte => return i128::from(pattern),
    };
    if pattern < half {
        i128::from(pattern)
    } else {
        i128::from(pattern) - 2 * i128::from(half)
    }
}

/// The bit pattern of the number of the datatype's range that is congruent to `number`.
fn pattern(dtype: Dtype, number: i128) -> u32
    ensures { result ≡ pattern_of dtype number }
{
    number.rem_euclid(i128::from(patterns(dtype))) as u32
}

/// 1 where the test holds, else 0.
fn truth(holds: bool) -> u32
    ensures { result ≡ truth_of holds }
{
    if holds { 1 } else { 0 }
}

/// The new bit pattern of an element, from its old one and the operand's (MPI 3.1, section 5.9.2).
fn combined(op: Op, dtype: Dtype, old: u32, operand: u32) -> u32
    requires old { old < patterns_of dtype }
    requires operand { operand < patterns_of dtype }
    ensures value { result ≡ combined_of op dtype old operand }
    ensures fits { result < patterns_of dtype }
{
    match op {
        Op::Replace => operand,
        Op::NoOp => old,
        Op::Max => if number(dtype, old) < number(dtype, operand) {
            operand
        } else {
            old
        },
        Op::Min => if number(dtype, operand) < number(dtype, old) {
            operand
        } else {
            old
        },
        Op::Sum => pattern(dtype, number(dtype, old) + number(dtype, operand)),
        Op::Prod => pattern(dtype, number(dtype, old) * number(dtype, operand)),
        Op::Land => truth(old != 0 && operand != 0),
        Op::Band => old & operand,
        Op::Lor => truth(old != 0 || operand != 0),
        Op::Bor => old | operand,
        Op::Lxor => truth((old != 0) != (operand != 0)),
        Op::Bxor => old ^ operand,
    }
}

/// Whether the element has the pattern that it is compared with, where there is one.
fn meets(compare: Option<u32>, dtype: Dtype, element: u32) -> bool
    requires { ForSome compare (λ pattern. pattern < patterns_of dtype) }
    ensures { result ≡ meets_of compare dtype element }
{
    match compare {
        None => true,
        Some(pattern) => pattern == element,
    }
}

/// The bits of a cell after the change: the element's bytes are those of the new number, and all other bytes stay.
/// The table of datatypes and operations is that of MPI 3.1, sections 3.2.2, 5.9.2 and 11.3.4.
pub fn next_bits(old: u32, change: &Change) -> u32
    requires { Fits change.now }
    ensures { result ≡ next old change.now }
{
    let element = element_in(old, change.first_byte, change.dtype);
    if !meets(change.compare, change.dtype, element) {
        return old;
    }
    let new = combined(change.op, change.dtype, element, change.operand);
    with_element(old, change.first_byte, change.dtype, new)
}
