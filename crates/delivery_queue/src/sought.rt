//! What is looked for among the pending accesses.
ghost use Rattle.std.specs.Prelude.{◌≡◌, ◌+◌, ◌/◌, ◌%◌, ◌==◌, nat_lt};
ghost use Rattle.call_rules.specs.Transfers.{is_ordered_kind as is_ordered};
ghost use Rattle.delivery_queue.specs.Soughts.{is_sought as is_one_sought};
ghost use Rattle.rank_rules.specs.Pending.{is_on as is_on_window, share_cell as do_share_cell};

use rank_rules::PendingAccess;
use rma_types::{Access, Kind};

/// Which of the pending accesses are looked for.
#[derive(Clone, Copy, Debug)]
pub(crate) enum Sought {
    /// None of them.
    Nothing,
    /// Those on a window of this name.
    OnWindow { win: u8 },
    /// The fetches among those.
    FetchOnWindow { win: u8 },
    /// Those on a window of this name that reach the rank.
    AtTarget { win: u8, target: u32 },
    /// The fetches among those.
    FetchAtTarget { win: u8, target: u32 },
    /// The fetch of the call of this number.
    FetchOfCall { maker: Option<u32> },
    /// Those whose order is kept on a cell of this access.
    OnCellsOf { access: Access },
}

fn is_on(win: u8, one: &PendingAccess) -> bool
    ensures { result ≡ is_on_window win one.now }
{
    one.access.window % 32 == u32::from(win)
}

fn is_at(target: u32, one: &PendingAccess) -> bool
    ensures { result ≡ one.now.access.target == target }
{
    u32::from(one.access.target) == target
}

/// Whether the order of such accesses is kept on a shared cell.
pub(crate) fn is_ordered_kind(kind: &Kind) -> bool
    ensures { result ≡ is_ordered kind.now }
{
    match kind {
        Kind::Acc { .. } | Kind::Cas { .. } => true,
        Kind::Get | Kind::Put | Kind::Load | Kind::Store => false,
    }
}

/// Whether a cell of the first access, of 4 bytes, begins before the cells of the second end.
fn begins_within(a: &Access, b: &Access) -> bool
    ensures { result ≡ nat_lt (a.now.lo / 4) ((b.now.lo + b.now.len + 3) / 4) }
{
    u64::from(a.lo) / 4 < (u64::from(b.lo) + u64::from(b.len) + 3) / 4
}

/// Whether the two accesses reach a common cell of one rank's memory.
fn share_cell(a: &Access, b: &Access) -> bool
    ensures { result ≡ do_share_cell a.now b.now }
{
    a.target == b.target && 0 < a.len && 0 < b.len && begins_within(a, b) && begins_within(b, a)
}

/// Whether the pending access is one of those that are sought.
pub(crate) fn is_sought(sought: &Sought, one: &PendingAccess) -> bool
    ensures { result ≡ is_one_sought sought.now one.now }
{
    match sought {
        Sought::Nothing => false,
        Sought::OnWindow { win } => is_on(*win, one),
        Sought::FetchOnWindow { win } => is_on(*win, one) && one.fetches,
        Sought::AtTarget { win, target } => is_on(*win, one) && is_at(*target, one),
        Sought::FetchAtTarget { win, target } => {
            is_on(*win, one) && (is_at(*target, one) && one.fetches)
        }
        Sought::FetchOfCall { maker } => one.fetches && *maker == Some(one.number),
        Sought::OnCellsOf { access } => {
            is_ordered_kind(&one.access.kind) && share_cell(access, &one.access)
        }
    }
}
