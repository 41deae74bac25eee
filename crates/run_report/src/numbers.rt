//! The numbers that stand in cells.
ghost use Rattle.std.specs.Prelude.{◌≡◌, ◌<◌, ◌≤◌, ◌*◌, ◌+◌, ◌%◌, ◌^◌};
ghost use Rattle.rma_types.specs.Datatypes.{size_of};
ghost use Rattle.call_rules.specs.Elements.{element_in};
ghost use Rattle.call_rules.specs.Numbers.{signed_number, number_of, patterns_of};
ghost use Rattle.run_texts.specs.Answers.{fetched_integer};

use rma_types::{Access, Dtype};

/// 256 to the power of a byte's place in its cell.
fn scale(first_byte: u64) -> u64
    requires { first_byte < 4 }
    ensures value { result ≡ 256 ^ first_byte }
    ensures nonzero { 0 < result }
{
    match first_byte {
        0 => 1,
        1 => 256,
        2 => 65_536,
        _ => 16_777_216,
    }
}

/// How many bit patterns an element has.
fn patterns(dtype: Dtype) -> u64
    ensures value { result ≡ patterns_of dtype }
    ensures nonzero { 0 < result }
{
    match dtype {
        Dtype::Int8 | Dtype::Uint8 | Dtype::Byte => 256,
        Dtype::Int16 | Dtype::Uint16 => 65_536,
        Dtype::Int32 | Dtype::Uint32 => 4_294_967_296,
    }
}

/// The number below `half` that a pattern is, or that it is 2 * `half` above.
fn signed(half: u64, pattern: u64) -> i64
    requires half { half ≤ 2147483648 }
    requires pattern { pattern < 2 * half }
    ensures { result ≡ signed_number half pattern }
{
    if pattern < half {
        pattern as i64
    } else {
        -1 - (2 * half - 1 - pattern) as i64
    }
}

/// The number that a bit pattern stands for.
fn number(dtype: Dtype, pattern: u64) -> i64
    requires { pattern < patterns_of dtype }
    ensures { result ≡ number_of dtype pattern }
{
    match dtype {
        Dtype::Int8 => signed(128, pattern),
        Dtype::Int16 => signed(32_768, pattern),
        Dtype::Int32 => signed(2_147_483_648, pattern),
        Dtype::Uint8 | Dtype::Uint16 | Dtype::Uint32 | Dtype::Byte => pattern as i64,
    }
}

/// The bit pattern of the element that begins at a byte of a cell.
fn element(bits: u64, first_byte: u64, dtype: Dtype) -> u64
    requires { first_byte < 4 }
    ensures value { result ≡ element_in bits first_byte dtype }
    ensures below { result < patterns_of dtype }
{
    bits / scale(first_byte) % patterns(dtype)
}

/// The number of an access's element, read in the bits of its cell.
pub(crate) fn fetched_number(access: &Access, dtype: Dtype, place: u32, bits: u64) -> i64
    ensures { result ≡ fetched_integer access.now dtype place bits }
{
    let address = access.lo as u64 + place as u64 * dtype.size() as u64;
    number(dtype, element(bits, address % 4, dtype))
}
