//! The order of items by the clocks of whole runs.
use crate::plays::played;
use crate::scripts::{PUT_FLUSHED, RING, id};
use rma_types::{Id, NoMemory};
use std::process::Abort;
use vector_clocks::{Clocks, clocks_of};

/// Two shared unlocks before an exclusive lock.
const EXCLUSIVE: &str =
    "ranks 3\nrank 0 1 2\nallocate w0 4 4\nrank 0 1\nlock w0 shared 0\nunlock w0 0\nrank 2\nlock w0 shared 2\nunlock w0 2\nlock w0 exclusive 0\nunlock w0 0\n";

const SHARED: &str =
    "ranks 2\nrank 0 1\nallocate w0 4 4\nrank 0\nlock w0 shared 1\nunlock w0 1\nrank 1\nlock_all w0\nunlock_all w0\nlock w0 shared 1\nunlock w0 1\n";

/// An unlock_all orders no other lock_all.
const SIXTEEN: &str =
    "ranks 16\nrank 0 1 2 3 4 5 6 7 8 9 10 11 12 13 14 15\nallocate w0 4 4\nlock_all w0\nput w0 0 0 int32 1\nunlock_all w0\n";

/// The first item of each pair is before the second, or of none.
fn compare(rt: &impl Abort, clocks: &Clocks, pairs: &[(Id, Id)], wanted: bool) {
    for (a, b) in pairs {
        assert_eq!(rt; clocks.before(*a, *b), wanted, "{a:?} {b:?}");
    }
}

/// Of each script, pairs of items of which the first is before the second, and pairs of which it is not.
#[test]
fn items_are_before_others(rt: HostRuntime) -> Result<(), NoMemory> {
    let rows: [(&str, &[(Id, Id)], &[(Id, Id)]); 5] = [
        (
            PUT_FLUSHED,
            &[
                (id(0, 5), id(1, 5)),
                (id(0, 6), id(1, 4)),
                (id(1, 2), id(0, 7)),
            ],
            &[
                (id(1, 5), id(0, 5)),
                (id(0, 7), id(1, 4)),
                (id(0, 2), id(1, 2)),
            ],
        ),
        (
            RING,
            &[
                (id(1, 2), id(0, 3)),
                (id(0, 2), id(3, 3)),
                (id(0, 6), id(1, 7)),
                (id(3, 6), id(0, 7)),
                (id(2, 2), id(2, 7)),
                (id(2, 2), id(1, 7)),
            ],
            &[
                (id(2, 2), id(0, 3)),
                (id(3, 2), id(0, 3)),
                (id(0, 6), id(2, 7)),
                (id(1, 7), id(0, 7)),
            ],
        ),
        (
            EXCLUSIVE,
            &[(id(0, 3), id(2, 4)), (id(1, 3), id(2, 4))],
            &[
                (id(2, 4), id(0, 3)),
                (id(0, 3), id(1, 3)),
                (id(0, 2), id(1, 2)),
                (id(2, 3), id(0, 3)),
            ],
        ),
        (
            SHARED,
            &[(id(1, 3), id(1, 4))],
            &[(id(0, 3), id(1, 4)), (id(1, 3), id(0, 3))],
        ),
        (
            SIXTEEN,
            &[(id(0, 0), id(15, 1)), (id(15, 3), id(15, 3))],
            &[(id(0, 5), id(15, 2)), (id(255, 0), id(16, 9))],
        ),
    ];
    for (text, before, apart) in rows {
        let (script, run) = played(rt.alloc(), text)?;
        let clocks = clocks_of(rt.alloc(), &script, &run)?;
        compare(&rt, &clocks, before, true);
        compare(&rt, &clocks, apart, false);
    }
    Ok(())
}
