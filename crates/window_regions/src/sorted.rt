//! Searches among ranges that have no byte in common, in ascending order.
ghost use Rattle.std.specs.Prelude.{◌≡◌, ◌≤◌, ◌<◌, ◌+◌};
ghost use Rattle.std.specs.List.{list_any, list_all};
ghost use Rattle.call_rules.specs.Pieces.{numbers_from};
ghost use Rattle.rank_rules.specs.Ranges.{do_overlap};
ghost use Rattle.rank_rules.specs.Windows.{is_attached_from};
ghost use Rattle.window_regions.specs.Ascending.{IsAscending, IsFirstPast, is_attached_byte};

use crate::region::Region;

/// The place of the first range that ends past the address.
pub fn first_past(ranges: &[Region], address: u32) -> usize
    requires { IsAscending ranges.now }
    ensures { IsFirstPast ranges.now address result }
{
    ranges.partition_point(|range| range.end() <= address)
}

/// Whether a byte of the range, which has bytes, lies in one of the ranges.
pub fn do_any_overlap(ranges: &[Region], base: u32, bytes: u32) -> bool
    requires ascending { IsAscending ranges.now }
    requires some { 0 < bytes }
    ensures { result ≡ list_any (λ own. do_overlap
        (record { base = base; bytes = bytes }) own.range) ranges.now }
{
    let at = first_past(ranges, base);
    if at < ranges.len() {
        let range = ranges[at];
        u64::from(range.base()) < u64::from(base) + u64::from(bytes)
    } else {
        false
    }
}

/// Whether one of the ranges is attached to the window and begins at the base.
pub fn does_any_begin(ranges: &[Region], win: u8, base: u32) -> bool
    requires { IsAscending ranges.now }
    ensures { result ≡ list_any (is_attached_from win base) ranges.now }
{
    let at = first_past(ranges, base);
    if at < ranges.len() {
        let range = ranges[at];
        is_attached_at(&range, win, base)
    } else {
        false
    }
}

/// Whether the range is attached to the window and begins at the base.
pub fn is_attached_at(range: &Region, win: u8, base: u32) -> bool
    ensures { result ≡ is_attached_from win base range.now }
{
    range.is_attached() && range.win() == win && range.base() == base
}

/// Whether the byte lies in the range, which is attached to the window.
fn has_attached_byte(range: &Region, win: u8, address: u64) -> bool
    ensures { result ≡ is_attached_byte win address range.now }
{
    (range.is_attached() && range.win() == win)
        && (u64::from(range.base()) <= address && address < u64::from(range.end()))
}

/// Whether each of the bytes lies in a range that is attached to the window.
///
/// It looks at the ranges that have one of the bytes, and at the first of them by a binary search.
pub fn do_cover(ranges: &[Region], win: u8, lo: u32, len: u32) -> bool
    requires { IsAscending ranges.now }
    ensures { result ≡ list_all (λ address. list_any (is_attached_byte win address) ranges.now)
        (numbers_from lo len) }
{
    let end = u64::from(lo) + u64::from(len);
    let mut address = u64::from(lo);
    let first = first_past(ranges, lo);
    for at in first..ranges.len() {
        if end <= address {
            return true;
        }
        let range = ranges[at];
        if !has_attached_byte(&range, win, address) {
            return false;
        }
        address = u64::from(range.end());
    }
    end <= address
}
