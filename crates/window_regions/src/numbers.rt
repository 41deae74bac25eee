//! The numbers of calls.
ghost use Rattle.std.specs.Prelude.{◌≡◌, ◌≤◌};
ghost use Rattle.call_rules.specs.Ranks.{is_rank as is_rank_of, natural as natural_of};
ghost use Rattle.call_rules.specs.WellFormed.{IsUpTo};

/// An integer as an address or a number of bytes: a negative one counts as 0.
pub fn natural(z: i32) -> u32
    ensures { result ≡ natural_of z }
{
    if z < 0 { 0 } else { z as u32 }
}

/// The integer is a rank of a run of so many ranks.
pub fn is_rank(z: i32, ranks: u8) -> bool
    ensures { result ≡ is_rank_of ranks z }
{
    0 <= z && z < i32::from(ranks)
}

/// The elements of a call, at most 256; a count below 0 counts as 0.
pub fn few_elements(count: i64) -> u32
    requires { IsUpTo 256 count }
    ensures value { result ≡ natural_of count }
    ensures few { result ≤ 256 }
{
    if count < 0 { 0 } else { count as u32 }
}
