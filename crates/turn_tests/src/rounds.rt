//! Turns of two seats one after the other, and of sixteen at once.
use crate::marks::Marks;
use crate::playing::{all_marks, are_in_order, play_all, play_one};
use std::test::Fail;
use turn_lock::Turn;

/// How many turns each seat takes where all play at once.
const TURNS: u32 = 10_000;

#[test]
fn two_seats_and_one_mark(rt: HostRuntime) -> Result<(), Fail> {
    let Ok((turn, mut seats)) = Turn::new(rt.alloc(), Marks::new(rt.alloc(), 7), 2) else {
        panic!(rt; "no memory");
    };
    play_one(&rt, &turn, seats.as_mut_slice(), 0, true);
    play_one(&rt, &turn, seats.as_mut_slice(), 1, false);
    play_one(&rt, &turn, seats.as_mut_slice(), 0, false);
    let marks = turn.close(seats);
    assert!(rt; marks.marks.len() == 1 && marks.marks[0].seat == 0 && marks.place == 7);
    Ok(())
}

#[test]
fn sixteen_seats_at_once(rt: HostRuntime) -> Result<(), Fail> {
    let Ok((turn, mut seats)) = Turn::new(rt.alloc(), Marks::new(rt.alloc(), 7), 16) else {
        panic!(rt; "no memory");
    };
    play_all(&rt, &turn, seats.as_mut_slice(), 16, TURNS);
    let marks = turn.close(seats);
    assert!(rt; marks.marks.len() == all_marks(16, TURNS));
    assert!(rt; are_in_order(marks.marks.as_slice(), TURNS));
    Ok(())
}
