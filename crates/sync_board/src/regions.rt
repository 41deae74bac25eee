//! The ranges that one rank has attached to one window (MPI 3.1, section 11.2.4).
ghost use Rattle.std.specs.Prelude.{◌≡◌, ℕ, ◌+◌, ◌^◌, ◌<◌, ◌==◌, not, List, [], ◌∷◌, ◌++◌, OnOk, OnErr};
ghost use Rattle.std.specs.List.{filter, list_any};
ghost use Rattle.rank_rules.specs.Ranges.{Range, covers as do_they_cover, has_byte as has_range_byte};
ghost use Rattle.sync_board.specs.KeptRanges.{KeepsRanges, range_in, without};

use rma_types::NoMemory;
use std::alloc::Global;
use window_regions::Attached;

/// So many bytes from a base on.
#[derive(Clone, Copy, Debug)]
pub(crate) struct Span {
    pub(crate) base: u32,
    pub(crate) bytes: u32,
}

/// The ranges that a rank has attached to a window.
///
/// Those without a byte in common have an index. A range that has a byte of an earlier one stands beside them, in a
/// list of its own: a rank that tests its calls attaches none.
#[derive(Debug, Drop)]
pub(crate) struct Regions {
    pub(crate) apart: Attached,
    pub(crate) others: Vec<Span>,
}

/// The byte at the address lies in the range.
fn has_byte(span: &Span, address: u32) -> bool
    ensures { result ≡ has_range_byte address (range_in span.now) }
{
    span.base <= address && u64::from(address) < u64::from(span.base) + u64::from(span.bytes)
}

/// The byte at the address lies in one of the ranges.
fn do_any_have(spans: &[Span], address: u32) -> bool
    ensures { result ≡ list_any (λ span. has_range_byte address (range_in span)) spans.now }
{
    spans.iter().any(|span| has_byte(span, address))
}

/// The ranges that begin at the base go.
fn remove_from(spans: &mut Vec<Span>, base: u32)
    ensures { spans.new.items ≡ filter (λ span. not (span.base == base)) spans.old.items }
{
    spans.retain(
        |span: &Span| -> bool
            ensures { result ≡ not (span.now.base == base) }
        { span.base != base },
    );
}

impl Regions {
    /// A rank that has attached nothing.
    pub(crate) fn new(alloc: Global) -> Regions
        ensures { KeepsRanges [] result }
    {
        Regions {
            apart: Attached::new(alloc),
            others: Vec::new(alloc),
        }
    }

    /// One range more: so many bytes from the base on, at least 1.
    pub(crate) fn attach(&mut self, base: u32, bytes: u32) -> Result<(), NoMemory>
        requires some { 0 < bytes }
        requires end { base + bytes < 2 ^ 32 }
        ensures ok { OnOk result ((ranges : List Range) → KeepsRanges ranges self.old →
            KeepsRanges (ranges ++ record { base = base; bytes = bytes } ∷ []) self.new) }
        ensures err { OnErr result ((ranges : List Range) → KeepsRanges ranges self.old →
            KeepsRanges ranges self.new) }
    {
        if self.apart.is_taken(base, bytes) {
            match self.others.push(Span { base, bytes }) {
                Ok(()) => Ok(()),
                Err(_) => Err(NoMemory),
            }
        } else {
            self.apart.add(base, bytes)
        }
    }

    /// The ranges that begin at the base go.
    pub(crate) fn detach(&mut self, base: u32)
        ensures { (ranges : List Range) → KeepsRanges ranges self.old →
            KeepsRanges (without base ranges) self.new }
    {
        self.apart.remove(base);
        remove_from(&mut self.others, base);
    }

    /// All ranges go, as a free takes them.
    pub(crate) fn clear(&mut self, alloc: Global)
        ensures { KeepsRanges [] self.new }
    {
        *self = Regions::new(alloc);
    }

    /// The byte at the address lies in one of the ranges.
    fn has(&self, address: u32) -> bool
        ensures { (ranges : List Range) → KeepsRanges ranges self.now →
            result ≡ list_any (has_range_byte address) ranges }
    {
        self.apart.covers(address, 1) || do_any_have(&self.others, address)
    }

    /// Whether each of so many bytes from an address on lies in one of the ranges.
    pub(crate) fn covers(&self, lo: u32, len: u32) -> bool
        requires { lo + len < 2 ^ 32 }
        ensures { (ranges : List Range) → KeepsRanges ranges self.now →
            result ≡ do_they_cover ranges lo len }
    {
        if self.others.is_empty() {
            return self.apart.covers(lo, len);
        }
        for address in lo..lo + len {
            if !self.has(address) {
                return false;
            }
        }
        true
    }
}
