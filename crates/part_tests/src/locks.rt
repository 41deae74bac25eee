//! The locks of one window, at the last of 16 ranks and targets.
use lock_table::LockTable;
use rma_types::Lock;
use std::process::Abort;

fn take(rt: &impl Abort, table: &mut LockTable, rank: u8, kind: Lock) {
    assert!(rt; rank < 16);
    assert!(rt; table.may_grant(15, kind));
    assert!(rt; !table.holds(15, rank));
    table.grant(15, rank, kind);
}

fn give_back(rt: &impl Abort, table: &mut LockTable, rank: u8) {
    assert!(rt; rank < 16);
    assert!(rt; table.holds(15, rank));
    table.release(15, rank);
}

#[test]
fn shared_locks_of_sixteen_ranks(rt: HostRuntime) {
    let mut table = LockTable::new(7);
    for rank in 0..16 {
        take(&rt, &mut table, rank, Lock::Shared);
    }
    assert!(rt; table.is_held(15) && !table.is_held(14));
    assert!(rt; !table.may_grant(15, Lock::Exclusive) && table.may_grant_all());
    for rank in 0..16 {
        give_back(&rt, &mut table, rank);
    }
    take(&rt, &mut table, 15, Lock::Exclusive);
    assert!(rt; !table.may_grant(15, Lock::Shared) && !table.may_grant_all());
    assert!(rt; table.may_grant(14, Lock::Exclusive));
}
