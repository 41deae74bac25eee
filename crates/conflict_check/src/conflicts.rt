//! Classes of accesses that may form forbidden pairs (after MPI 3.1, section 11.7).
ghost use Rattle.std.specs.Prelude.{◌≡◌};
ghost use Rattle.conflict_check.specs.Conflicts.{are_quiet as are_quiet_casts, are_store_and_update as are_both};
ghost use Rattle.conflict_check.specs.Conflicts.{by_operation as by_operation_of, do_conflict as do_classes_conflict};

use access_index::{Cast, Class, Region};
use rma_types::Model;

/// Two reads, or two accesses of a rank's own memory: no rule forbids them.
fn are_quiet(a: Cast, b: Cast) -> bool
    ensures { result ≡ are_quiet_casts a b }
{
    match (a, b) {
        (Cast::Read | Cast::Load, Cast::Read | Cast::Load) => true,
        (Cast::Store, Cast::Store | Cast::Load) | (Cast::Load, Cast::Store) => true,
        (Cast::Update | Cast::Swap, _) | (_, Cast::Update | Cast::Swap) => false,
        (Cast::Read, Cast::Store) | (Cast::Store, Cast::Read) => false,
    }
}

/// A store and an RMA update.
fn are_store_and_update(a: Cast, b: Cast) -> bool
    ensures { result ≡ are_both a b }
{
    match (a, b) {
        (Cast::Store, Cast::Update | Cast::Swap) | (Cast::Update | Cast::Swap, Cast::Store) => true,
        _ => false,
    }
}

/// Whether accesses of the two classes that reach the region form a forbidden pair where they are not ordered, unless
/// they are accumulates that may overlap. In a block they reach a common byte, and one of them begins there.
pub(crate) fn do_conflict(model: Model, region: Region, a: Class, b: Class) -> bool
    ensures { result ≡ do_classes_conflict model region a b }
{
    match region {
        Region::Block {
            target: _,
            block: _,
        } => a.from < b.to && b.from < a.to && (a.begins || b.begins) && !are_quiet(a.cast, b.cast),
        Region::Window {
            target: _,
            window: _,
        } => match model {
            Model::Separate => are_store_and_update(a.cast, b.cast),
            Model::Unified => false,
        },
    }
}

/// Whether between the two classes the operations of accumulates count: both are updates, of two ranks.
pub(crate) fn by_operation(a: Class, b: Class) -> bool
    ensures { result ≡ by_operation_of a b }
{
    match (a.cast, b.cast) {
        (Cast::Update, Cast::Update) => a.rank != b.rank,
        _ => false,
    }
}
