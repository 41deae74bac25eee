//! The done points and the visible points of accesses, a row for each kind of step that is one or that is none.
use crate::plays::played;
use crate::scripts::{PUT_BETWEEN_FENCES, PUT_FLUSHED, RING, id};
use every_point::{done_points, led_from, visible_points};
use rma_types::{Id, Model, NoMemory};
use std::process::Abort;

/// A script, an access of it, and the points that it has.
type Row<'a> = (&'a str, Id, &'a [Id]);

/// Of rank 0, a put that is flushed in each way; a flush of another rank and the local flushes give no point of it.
const FLUSHES: &str =
    "ranks 2\nrank 0\nallocate w0 4 4\nlock_all w0\nput w0 1 0 int32 5\nflush w0 0\nflush w0 1\nflush_local w0 1\nflush_local_all w0\nflush_all w0\nunlock_all w0\nrank 1\nallocate w0 4 4\n";

const LATER_EPOCH: &str =
    "ranks 2\nrank 0\nallocate w0 4 4\nlock w0 shared 1\nput w0 1 0 int32 5\nunlock w0 1\nlock w0 exclusive 1\nflush w0 1\nunlock w0 1\nrank 1\nallocate w0 4 4\n";

const TWO_STARTS: &str =
    "ranks 2\nrank 0\nallocate w0 4 4\nstart w0 1\nput w0 1 0 int32 5\ncomplete w0\nstart w0 1\nput w0 1 0 int32 6\ncomplete w0\nrank 1\nallocate w0 4 4\npost w0 0\nwait w0\npost w0 0\nwait w0\n";

const GET_FLUSHED: &str =
    "ranks 2\nrank 0\nallocate w0 4 4\nlock w0 shared 1\nget w0 1 0 int32 1\nflush_local w0 1\nflush_local_all w0\nunlock w0 1\nrank 1\nallocate w0 4 4\n";

const GET_STARTED: &str =
    "ranks 2\nrank 0\nallocate w0 4 4\nstart w0 1\nget w0 1 0 int32 1\ncomplete w0\nrank 1\nallocate w0 4 4\npost w0 0\nwait w0\n";

/// A request that is never waited for, one that is, and one of an update, which is tested.
const REQUESTS: &str =
    "ranks 2\nrank 0\nallocate w0 4 4\nlock_all w0\nrget q0 w0 1 0 int32 1\nrget q1 w0 1 0 int32 1\nrput q2 w0 1 0 int32 1\nwaitreq q1\ntestreq q2\nunlock_all w0\nrank 1\nallocate w0 4 4\n";

const TESTED: &str =
    "ranks 2\nrank 0\nallocate w0 4 4\nlock_all w0\nrget q0 w0 1 0 int32 1\ntestreq q0\nunlock_all w0\nrank 1\nallocate w0 4 4\n";

#[test]
fn accesses_are_done_at_their_points(rt: HostRuntime) -> Result<(), NoMemory> {
    let rows: [Row; 15] = [
        (PUT_FLUSHED, id(0, 3), &[id(0, 5), id(0, 8)]),
        (FLUSHES, id(0, 3), &[id(0, 6), id(0, 9), id(0, 10)]),
        (LATER_EPOCH, id(0, 3), &[id(0, 5), id(0, 7), id(0, 8)]),
        (PUT_BETWEEN_FENCES, id(0, 4), &[id(0, 7), id(1, 5)]),
        (TWO_STARTS, id(0, 3), &[id(1, 3)]),
        (TWO_STARTS, id(0, 7), &[id(1, 5)]),
        (RING, id(3, 4), &[id(0, 7)]),
        (GET_FLUSHED, id(0, 3), &[id(0, 5), id(0, 6), id(0, 7)]),
        (GET_STARTED, id(0, 3), &[id(0, 5), id(1, 3)]),
        (REQUESTS, id(0, 3), &[id(0, 11)]),
        (REQUESTS, id(0, 5), &[id(0, 9), id(0, 11)]),
        (REQUESTS, id(0, 7), &[id(0, 11)]),
        (TESTED, id(0, 3), &[id(0, 5), id(0, 6)]),
        (PUT_FLUSHED, id(0, 2), &[]),
        (PUT_FLUSHED, id(9, 0), &[]),
    ];
    for (text, access, wanted) in rows {
        let (script, run) = played(rt.alloc(), text)?;
        let points = done_points(rt.alloc(), &script, &run, access)?;
        assert!(rt; points.as_slice() == wanted, "{text} {access:?}");
    }
    Ok(())
}

/// The last fence has no successor, and the free makes the put visible once more.
const FREED: &str =
    "ranks 2\nrank 0 1\nallocate w0 4 4\nfence w0\nrank 0\nput w0 1 0 int32 5\nrank 0 1\nfence w0 nosucceed\nfree w0\n";

const WAITS: &str =
    "ranks 2\nrank 0\nallocate w0 4 4\nstart w0 1\nput w0 1 0 int32 5\ncomplete w0\nbarrier\nstart w0 1\ncomplete w0\nbarrier\nrank 1\nallocate w0 4 4\npost w0 0\nbarrier\nwait w0\npost w0 0\nbarrier\ntestwin w0\n";

const LOCKS: &str =
    "ranks 2\nrank 0\nallocate w0 4 4\nlock w0 exclusive 1\nput w0 1 0 int32 5\nunlock w0 1\nbarrier\nrank 1\nallocate w0 4 4\nbarrier\nlock w0 shared 1\nunlock w0 1\nlock_all w0\nunlock_all w0\n";

/// A sync before the flush makes nothing visible, and one after it does.
const SYNCS: &str =
    "ranks 2\nrank 0\nallocate w0 4 4\nlock_all w0\nput w0 1 0 int32 5\nflush w0 1\nbarrier\nunlock_all w0\nrank 1\nallocate w0 4 4\nlock_all w0\nsync w0\nbarrier\nsync w0\nload w0 0 int32 1\nunlock_all w0\n";

/// A store, and each step by which its rank gives out.
const STORE: &str =
    "ranks 2\nrank 0\nallocate w0 4 4\nstore w0 0 int32 7\npost w0 1\nwait w0\nlock w0 shared 0\nunlock w0 0\nlock_all w0\nsync w0\nunlock_all w0\nfence w0\nfence w0 nosucceed\nfree w0\nrank 1\nallocate w0 4 4\nstart w0 0\ncomplete w0\nfence w0\nfence w0 nosucceed\nfree w0\n";

const STORE_POINTS: [Id; 7] = [
    Id { rank: 0, index: 4 },
    Id { rank: 0, index: 7 },
    Id { rank: 0, index: 9 },
    Id { rank: 0, index: 10 },
    Id { rank: 0, index: 11 },
    Id { rank: 0, index: 13 },
    Id { rank: 0, index: 15 },
];

/// In the separate model an update is visible where its owner takes in, and a store where its rank gives out; in the
/// unified model where it is done, or at once. A read is visible nowhere.
#[test]
fn updates_are_visible_at_their_points(rt: HostRuntime) -> Result<(), NoMemory> {
    let (separate, unified) = (Model::Separate, Model::Unified);
    let rows: [(Row, Model); 11] = [
        (
            (PUT_BETWEEN_FENCES, id(0, 4), &[id(1, 5), id(1, 7)]),
            separate,
        ),
        (
            (PUT_BETWEEN_FENCES, id(0, 4), &[id(0, 7), id(1, 5)]),
            unified,
        ),
        ((FREED, id(0, 4), &[id(1, 5), id(1, 7)]), separate),
        ((WAITS, id(0, 3), &[id(1, 5), id(1, 9)]), separate),
        ((LOCKS, id(0, 3), &[id(1, 4), id(1, 6)]), separate),
        ((PUT_FLUSHED, id(0, 3), &[]), separate),
        ((PUT_FLUSHED, id(0, 3), &[id(0, 5), id(0, 8)]), unified),
        ((SYNCS, id(0, 3), &[id(1, 6)]), separate),
        ((STORE, id(0, 2), &STORE_POINTS), separate),
        ((STORE, id(0, 2), &[id(0, 2)]), unified),
        ((PUT_FLUSHED, id(1, 5), &[]), separate),
    ];
    for ((text, access, wanted), model) in rows {
        let (script, run) = played(rt.alloc(), text)?;
        let points = visible_points(rt.alloc(), &script, &run, access, model)?;
        assert!(rt; points.as_slice() == wanted, "{text} {access:?} {model:?}");
    }
    Ok(())
}

/// An edge leads from the post of rank 0 to the start of rank 3 that it meets, and nowhere else.
#[test]
fn an_edge_leads_from_a_post(rt: HostRuntime) -> Result<(), NoMemory> {
    let (script, run) = played(rt.alloc(), RING)?;
    let met = led_from(rt.alloc(), &script, &run, id(0, 2))?;
    assert!(rt; met.as_slice() == [id(3, 3)].as_slice());
    Ok(())
}
