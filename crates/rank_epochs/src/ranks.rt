//! The ranks that calls name (MPI 3.1, sections 11.3 and 11.5).
ghost use Rattle.std.specs.Prelude.{◌≡◌, ◌≤◌, ◌<◌, length, IsTrue};
ghost use Rattle.std.specs.List.{list_all, list_any};
ghost use Rattle.call_rules.specs.Ranks.{natural as natural_of, is_rank as is_rank_of, is_same_rank as is_same};
ghost use Rattle.call_rules.specs.Ranks.{names_twice as has_twice, members_of as members, is_member as is_among};
ghost use Rattle.rank_rules.specs.EpochTests.{is_wrong_group as is_wrong};

use arrayvec::ArrayVec;

/// Distinct ranks, in the order in which they were named.
pub type Ranks = ArrayVec<u8, 16>;

/// An integer as a rank: a negative one counts as 0.
pub fn natural(z: i32) -> u32
    ensures { result ≡ natural_of z }
{
    if z < 0 { 0 } else { z as u32 }
}

/// Whether the integer is a rank of a run of so many ranks.
pub fn is_rank(z: i32, ranks: u8) -> bool
    ensures { result ≡ is_rank_of ranks z }
{
    0 <= z && z < i32::from(ranks)
}

fn is_same_rank(a: i32, b: i32) -> bool
    ensures { result ≡ is_same a b }
{
    a == b
}

fn contains_rank(rank: i32, ranks: &[i32]) -> bool
    ensures { result ≡ list_any (is_same rank) ranks.now }
{
    ranks.iter().any(|other| is_same_rank(rank, *other))
}

fn names_twice(group: &[i32]) -> bool
    ensures { result ≡ has_twice group.now }
{
    match group.split_first() {
        None => false,
        Some((first, others)) => contains_rank(*first, others) || names_twice(others),
    }
}

fn are_ranks(group: &[i32], ranks: u8) -> bool
    ensures { result ≡ list_all (is_rank_of ranks) group.now }
{
    group.iter().all(|rank| is_rank(*rank, ranks))
}

/// Whether a member of the group is no rank, or stands there twice.
pub fn is_wrong_group(group: &[i32], ranks: u8) -> bool
    ensures { result ≡ is_wrong ranks group.now }
{
    !are_ranks(group, ranks) || names_twice(group)
}

/// Whether the rank is one of these.
pub fn is_member(rank: u32, ranks: &Ranks) -> bool
    ensures { result ≡ is_among rank ranks.now.items }
{
    ranks
        .as_slice()
        .iter()
        .any(|other| u32::from(*other) == rank)
}

/// The members of a group of ranks.
pub fn members_of(group: &[i32]) -> Ranks
    requires few { length group.now ≤ 16 }
    requires ranks { IsTrue (list_all (is_rank_of 16) group.now) }
    ensures { result.items ≡ members group.now }
{
    let mut ranks = ArrayVec::new();
    for rank in group {
        ranks.push(*rank as u8);
    }
    ranks
}
