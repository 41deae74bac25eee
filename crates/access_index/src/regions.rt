//! Parts of the memory of ranks, and classes of accesses that reach them (after MPI 3.1, section 11.7).
ghost use Rattle.std.specs.Prelude.{◌≡◌, ◌<◌, ◌*◌, ◌+◌};
ghost use Rattle.call_rules.specs.Transfers.{is_no_op};
ghost use Rattle.access_index.specs.Regions.{block_class, cast_of as cast_by, is_update as is_update_cast, window_class};

use rma_types::{Access, Kind, Op};

/// What an access does: an RMA update that is no cas, a cas, an RMA read, a store or a load (MPI 3.1, sections 11.3 and
/// 11.7).
#[derive(Clone, Copy, Debug, PartialEq, Eq, Hash)]
pub enum Cast {
    Update,
    Swap,
    Read,
    Store,
    Load,
}

/// A part of the memory of a rank: four bytes from an address that is four times the number of the block, or what
/// belongs to the window of a number.
#[derive(Clone, Copy, Debug, PartialEq, Eq, Hash)]
pub enum Region {
    Block { target: u8, block: u64 },
    Window { target: u8, window: u32 },
}

/// Accesses of one rank that do the same, and where they reach a block: whether they begin there, and the bytes of it
/// that they reach, from `from` to below `to`. In a window none of the three is told.
#[derive(Clone, Copy, Debug, PartialEq, Eq, Hash)]
pub struct Class {
    pub rank: u8,
    pub cast: Cast,
    pub begins: bool,
    pub from: u8,
    pub to: u8,
}

/// The accesses of a class that reach a region.
#[derive(Clone, Copy, Debug, PartialEq, Eq, Hash)]
pub struct Group {
    pub region: Region,
    pub class: Class,
}

fn is_nothing(op: Op) -> bool
    ensures { result ≡ is_no_op op }
{
    op == Op::NoOp
}

/// What an access of this kind does. An accumulate with `no_op` is a read.
pub fn cast_of(kind: Kind) -> Cast
    ensures { result ≡ cast_by kind }
{
    match kind {
        Kind::Get => Cast::Read,
        Kind::Put => Cast::Update,
        Kind::Acc { op, dtype: _ } => {
            if is_nothing(op) {
                Cast::Read
            } else {
                Cast::Update
            }
        }
        Kind::Cas { dtype: _ } => Cast::Swap,
        Kind::Load => Cast::Load,
        Kind::Store => Cast::Store,
    }
}

/// Whether it changes memory, by RMA or by a store.
pub(crate) fn is_update(cast: Cast) -> bool
    ensures { result ≡ is_update_cast cast }
{
    match cast {
        Cast::Update | Cast::Swap | Cast::Store => true,
        Cast::Read | Cast::Load => false,
    }
}

/// The class of an access of this rank in a block that it reaches.
pub(crate) fn class_in_block(block: u64, rank: u8, access: &Access) -> Class
    requires begun { access.now.lo < 4 * block + 4 }
    requires open { 4 * block < access.now.lo + access.now.len }
    ensures { result ≡ block_class block rank access.now }
{
    let start = 4 * block;
    let lo = u64::from(access.lo);
    let end = lo + u64::from(access.len);
    Class {
        rank,
        cast: cast_of(access.kind),
        begins: start <= lo,
        from: lo.saturating_sub(start) as u8,
        to: (end - start).min(4) as u8,
    }
}

/// The class of an access of this rank in its window.
pub(crate) fn class_in_window(rank: u8, access: &Access) -> Class
    ensures { result ≡ window_class rank access.now }
{
    Class {
        rank,
        cast: cast_of(access.kind),
        begins: false,
        from: 0,
        to: 0,
    }
}
