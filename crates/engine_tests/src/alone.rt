//! One rank with two accesses that share no cell, worked out by hand.
use crate::items::{entry, issue, touch};
use crate::players::Taken;
use crate::players::Taken::{AtBoard, Drained, OnMemory};
use crate::plays::play_alone;
use crate::seats::script_of;
use rank_engine::Turned::{Again, Did, Ended};
use rank_engine::share_for;
use rma_record::Item;
use rma_types::{Delay, Step};
use std::test::Fail;

/// Two sums of two halves of a cell each.
const TWO_SUMS: &str =
    "ranks 1\nrank 0\nallocate w0 8 4\nlock w0 exclusive 0\nacc w0 0 0 uint16 sum 3 3\nacc w0 0 1 uint16 sum 5 5\nunlock w0 0\n";

/// A delay and a seed, and the steps and the items of the rank.
type Row<'a> = (Delay, u32, &'a [Taken], &'a [Item]);

/// The second attempt and the third come too late: so each time the second element of the access that is delivered
/// first. Without delay that is in the step of its Issue, with delay end where the unlock waits for it. With delay
/// seeded and this seed, the draw of the second sum delivers nothing, and that of the unlock the second sum; its delivery
/// goes on before the unlock waits for the first.
#[test]
fn a_delivery_that_is_begun_goes_on_before_all_else(rt: HostRuntime) -> Result<(), Fail> {
    let alloc = rt.alloc();
    let script = script_of(alloc, TWO_SUMS).ok_or("a script")?;
    let share = share_for(&script, 0);
    assert_eq!(rt; share, 4);
    let rows: [Row; 3] = [
        (
            Delay::None,
            0,
            &[
                AtBoard(Did),
                AtBoard(Did),
                OnMemory(Again),
                OnMemory(Again),
                OnMemory(Did),
                OnMemory(Did),
                AtBoard(Did),
                OnMemory(Ended),
                Drained(Ended),
            ],
            &[
                entry(0, 0, Step::Arrive),
                entry(0, 1, Step::Leave),
                entry(1, 2, Step::One),
                issue(2, 0, 0),
                touch(3, 0, 0, 0, 0),
                touch(3, 1, 0, 3, 5),
                issue(3, 0, 4),
                touch(6, 0, 1, 0, 0),
                touch(6, 1, 1, 1, 5),
                entry(4, 3, Step::One),
                Item::Ended,
            ],
        ),
        (
            Delay::End,
            0,
            &[
                AtBoard(Did),
                AtBoard(Did),
                OnMemory(Did),
                OnMemory(Did),
                OnMemory(Again),
                OnMemory(Again),
                OnMemory(Did),
                OnMemory(Did),
                AtBoard(Did),
                OnMemory(Ended),
                Drained(Ended),
            ],
            &[
                entry(0, 0, Step::Arrive),
                entry(0, 1, Step::Leave),
                entry(1, 2, Step::One),
                issue(2, 0, 0),
                issue(3, 0, 4),
                touch(3, 0, 0, 0, 0),
                touch(3, 1, 0, 3, 5),
                touch(4, 0, 1, 0, 0),
                touch(4, 1, 1, 1, 5),
                entry(4, 3, Step::One),
                Item::Ended,
            ],
        ),
        (
            Delay::Seeded,
            12,
            &[
                AtBoard(Did),
                AtBoard(Did),
                OnMemory(Did),
                OnMemory(Did),
                OnMemory(Did),
                OnMemory(Again),
                OnMemory(Again),
                OnMemory(Did),
                OnMemory(Did),
                AtBoard(Did),
                OnMemory(Ended),
                Drained(Ended),
            ],
            &[
                entry(0, 0, Step::Arrive),
                entry(0, 1, Step::Leave),
                entry(1, 2, Step::One),
                issue(2, 0, 0),
                issue(3, 0, 4),
                touch(4, 0, 1, 0, 0),
                touch(4, 1, 1, 3, 7),
                touch(3, 0, 0, 0, 0),
                touch(3, 1, 0, 1, 3),
                entry(4, 3, Step::One),
                Item::Ended,
            ],
        ),
    ];
    for (delay, seed, steps, items) in rows {
        let late = [false, true, true, false];
        let played = play_alone(alloc, &script, delay, seed, share, &late)?;
        assert_eq!(rt; played.steps.as_slice(), steps);
        assert_eq!(rt; played.log.items(), items);
        assert_eq!(rt; played.share, 0);
    }
    Ok(())
}
