//! The pending accesses of a rank, worked out by hand.
use delivery_queue::Pending;
use rma_types::{Access, Call, Dtype, Kind, NoMemory, Op};
use std::test::Fail;

const SUM: Kind = Kind::Acc {
    op: Op::Sum,
    dtype: Dtype::Int32,
};

/// Issues an access, that of call 4 with request q63.
fn issue(queue: &mut Pending, call: u32, access: &Access, fetches: bool) -> Result<(), NoMemory> {
    if call == 4 && !queue.is_live(63) {
        queue.issue(call, call, access, fetches, Some(63))
    } else {
        queue.issue(call, call, access, fetches, None)
    }
}

/// Where the first access stands that a flush of a target has delivered, in full or locally.
fn first_for(queue: &Pending, is_local: bool, target: i32) -> Option<usize> {
    if is_local {
        queue.next_for(&Call::FlushLocal { win: 3, target })
    } else {
        queue.next_for(&Call::Flush { win: 3, target })
    }
}

/// Which access is delivered before that of each place, or the same where it gives way to none.
const WAYS: [usize; 7] = [0, 0, 2, 3, 4, 0, 0];

/// A sum gives way to a sum on its cell, also through another one: the last shares no cell with the first. A put gives way
/// to none. An access without bytes is not pending. A local flush waits for what fetches, and a request for its own.
#[test]
fn an_access_gives_way_and_is_waited_for(rt: HostRuntime) -> Result<(), Fail> {
    let mut queue = Pending::new(rt.alloc())?;
    for (call, target, lo, len, kind, fetches) in [
        (0u32, 1u8, 4u32, 4u32, SUM, false),
        (1, 1, 4, 4, SUM, false),
        (2, 1, 4, 4, Kind::Put, false),
        (3, 1, 12, 4, SUM, false),
        (4, 2, 4, 4, SUM, true),
        (5, 1, 4, 8, SUM, false),
        (6, 1, 8, 4, SUM, false),
        (7, 3, 0, 0, Kind::Get, true),
    ] {
        let access = Access {
            window: 35,
            target,
            lo,
            len,
            kind,
        };
        issue(&mut queue, call, &access, fetches)?;
    }
    assert_eq!(rt; queue.count(), 7);
    for at in 0..7usize {
        assert!(rt; at < queue.count());
        assert_eq!(rt; queue.way(at), WAYS[at]);
    }
    for (is_local, target, first) in [
        (false, 1, Some(0)),
        (false, 2, Some(4)),
        (false, 3, None),
        (true, 1, None),
        (true, 2, Some(4)),
    ] {
        assert_eq!(rt; first_for(&queue, is_local, target), first);
    }
    assert_eq!(rt; queue.next_for(&Call::FlushAll { win: 4 }), None);
    assert_eq!(rt; queue.next_for(&Call::WaitReq { req: 63 }), Some(4));
    Ok(())
}
