//! The counts of a report's last line.
ghost use Rattle.std.specs.Prelude.{◌≡◌, ◌≤◌, ◌<◌, ◌^◌, length, count_by, sum, sum_by};
ghost use Rattle.call_rules.specs.Layout.{call_count};
ghost use Rattle.run_texts.specs.Report.{items_where};
ghost use Rattle.run_report.specs.Counts.{test_of};

use crate::runs::items_of;
use rma_record::{Item, Run};
use rma_types::Script;

/// What is counted of a run.
#[derive(Clone, Copy)]
pub(crate) enum Counted {
    Accesses,
    Touches,
    Entries,
    Refusals,
}

/// How many items of a log are counted.
fn count_in(items: &[Item], counted: Counted) -> usize
    ensures { result ≡ count_by (test_of counted) items.now }
{
    match counted {
        Counted::Accesses => items
            .iter()
            .filter(|item| matches!(item, Item::Issue { .. }))
            .count(),
        Counted::Touches => items
            .iter()
            .filter(|item| matches!(item, Item::Touch { .. }))
            .count(),
        Counted::Entries => items
            .iter()
            .filter(|item| matches!(item, Item::Entry { .. }))
            .count(),
        Counted::Refusals => items
            .iter()
            .filter(|item| matches!(item, Item::Refused { .. }))
            .count(),
    }
}

/// How many items of a run are counted.
pub(crate) fn count_items(run: &Run, counted: Counted) -> u128
    ensures { result ≡ items_where (test_of counted) run.now }
{
    let mut total: u128 = 0;
    for rank in 0..run.logs.len() {
        total += count_in(items_of(run, rank), counted) as u128;
    }
    total
}

/// How many calls a script has.
pub(crate) fn count_calls(script: &Script) -> usize
    requires { call_count script.now < 2 ^ 32 }
    ensures { result ≡ call_count script.now }
{
    let mut total = 0;
    for calls in script.calls.as_slice() {
        total += calls.len();
    }
    total
}

/// The sum of the cells.
pub(crate) fn total_of(cells: &[u32]) -> u128
    ensures { result ≡ sum cells.now }
{
    let mut total: u128 = 0;
    for cell in cells {
        total += *cell as u128;
    }
    total
}
