//! What a whole run says: how it ended, and the program's status.
ghost use Rattle.std.specs.Prelude.{◌≡◌, ◌<◌, length, IsTrue};
ghost use Rattle.std.specs.List.{list_any};
ghost use Rattle.lawful_runs.specs.Items.{has_ended as is_at_end, is_refused};
ghost use Rattle.lawful_runs.specs.Logs.{log_of};
ghost use Rattle.run_texts.specs.Report.{all_ended};
ghost use Rattle.run_texts.specs.Status.{status};

use rma_record::{Item, Run};
use rma_types::Finding;

/// The items of a rank's log.
pub(crate) fn items_of(run: &Run, rank: usize) -> &[Item]
    ensures { result.now ≡ log_of run.now rank }
{
    match run.logs.get(rank) {
        Some(log) => log.items(),
        None => &[],
    }
}

/// Whether a log ends with `Ended`.
pub(crate) fn has_ended(items: &[Item]) -> bool
    ensures { result ≡ is_at_end items.now }
{
    match items.last() {
        Some(Item::Ended) => true,
        _ => false,
    }
}

/// Whether every rank has ended.
pub(crate) fn every_rank_ended(run: &Run) -> bool
    ensures { result ≡ all_ended run.now }
{
    for rank in 0..run.logs.len() {
        if !has_ended(items_of(run, rank)) {
            return false;
        }
    }
    true
}

/// Whether a call of the log was refused.
fn refuses(items: &[Item]) -> bool
    ensures { result ≡ list_any is_refused items.now }
{
    items
        .iter()
        .any(|item| matches!(item, Item::Refused { .. }))
}

/// Whether a call of the run was refused.
fn any_refused(run: &Run) -> bool
    ensures { result ≡ list_any (list_any is_refused) run.now.logs }
{
    for rank in 0..run.logs.len() {
        if refuses(items_of(run, rank)) {
            return true;
        }
    }
    false
}

/// The status with which the program ends after a run: 7 where a rank stands, else 1 where there is a finding or a
/// refused call, else 0.
pub fn status_of(run: &Run, found: &[Finding]) -> u8
    ensures { result ≡ status run.now found.now }
{
    if !every_rank_ended(run) {
        7
    } else if !found.is_empty() || any_refused(run) {
        1
    } else {
        0
    }
}
