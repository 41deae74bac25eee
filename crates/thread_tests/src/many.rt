//! Sixteen threads that add to one cell at once.
ghost use Rattle.std.specs.Prelude.{◌≡◌, ◌+◌, ◌*◌, [], All, IfOk, length, sum_by};
ghost use Rattle.cell_words.specs.Holders.{SharedCells, views_of};
ghost use Rattle.cell_words.specs.Views.{held};
ghost use Rattle.thread_tests.specs.Ready.{IsReady, IsReadyOption};

use cell_face::Memory;
use cell_words::{CellPass, Cells};
use rma_types::NoMemory;
use std::alloc::Global;
use std::test::Fail;
use std::thread::{Threads, for_each_mut};

/// How many threads there are, and how often each adds 1.
const THREADS: usize = 16;

const ADDS: u32 = 100_000;

/// A pass, and what was seen through it: the sum of the places of its updates, and whether each update found as many
/// as its place, and all of them in ascending places.
#[derive(Drop)]
struct Adder {
    pass: Option<CellPass>,
    places: u64,
    in_order: bool,
}

/// What all adders saw, and the bits at the end.
#[derive(Drop)]
struct Outcome {
    places: u64,
    in_order: bool,
    finals: Vec<u32>,
}

/// Adds 1 to the first cell as often as the share allows, at most `ADDS` times.
fn add_often(cells: &Cells, adder: &mut Adder)
    requires { IsReadyOption cells.now 100000 adder.old.pass }
    ensures { IsReadyOption cells.now 100000 adder.new.pass }
{
    let Some(pass) = adder.pass.take() else {
        unreachable!()
    };
    let mut seat = cells.seat(pass);
    let mut next = 0u32;
    for _ in 0..ADDS {
        if seat.share() > 0 {
            let seen = seat.add(0, 1);
            adder.places = adder.places.wrapping_add(u64::from(seen.place));
            adder.in_order = adder.in_order && seen.bits == seen.place && next <= seen.place;
            next = seen.place.saturating_add(1);
        }
    }
    adder.pass = Some(seat.into_pass());
}

/// All adders add, each on a thread of its own.
fn add_at_once<R: Threads + Sync>(rt: &R, cells: &Cells, adders: &mut [Adder])
    requires { All (λ adder. IsReadyOption cells.now 100000 adder.pass) adders.old }
    ensures ready { All (λ adder. IsReadyOption cells.now 100000 adder.pass) adders.new }
    ensures count { length adders.new ≡ length adders.old }
{
    for_each_mut(
        rt,
        adders,
        THREADS,
        &|_i: usize, adder: &mut Adder|
            requires { IsReadyOption cells.now 100000 adder.old.pass }
            ensures { IsReadyOption cells.entry.now 100000 adder.new.pass }
        { add_often(cells, adder) },
    );
}

/// An adder for each pass.
fn adders_of(
    alloc: Global,
    cells: &Cells,
    mut passes: Vec<CellPass>,
) -> Result<Vec<Adder>, NoMemory>
    requires { All (IsReady cells.now 100000 0) passes.items }
    ensures ready { IfOk result (λ adders.
        All (λ adder. IsReadyOption cells.now 100000 adder.pass) adders.items) }
    ensures count { IfOk result (λ adders. length adders.items ≡ length passes.items) }
{
    let _ = cells;
    let mut adders = Vec::new(alloc);
    while let Some(pass) = passes.pop() {
        adders
            .push(Adder {
                pass: Some(pass),
                places: 0,
                in_order: true,
            })
            .map_err(|_| NoMemory)?;
    }
    Ok(adders)
}

/// The passes of all adders.
fn passes_of(
    alloc: Global,
    cells: &Cells,
    mut adders: Vec<Adder>,
) -> Result<Vec<CellPass>, NoMemory>
    requires { All (λ adder. IsReadyOption cells.now 100000 adder.pass) adders.items }
    ensures ready { IfOk result (λ passes. All (IsReady cells.now 100000 0) passes.items) }
    ensures count { IfOk result (λ passes. length passes.items ≡ length adders.items) }
{
    let _ = cells;
    let mut passes = Vec::new(alloc);
    while let Some(adder) = adders.pop() {
        match adder.pass {
            Some(pass) => passes.push(pass).map_err(|_| NoMemory)?,
            None => unreachable!(),
        }
    }
    Ok(passes)
}

/// All threads add to one cell, which is closed then.
fn add_and_close<R: Threads + Sync>(rt: &R, alloc: Global) -> Result<Outcome, NoMemory> {
    let (cells, passes) = Cells::new(alloc, &[0], &[ADDS; THREADS])?;
    let mut adders = adders_of(alloc, &cells, passes)?;
    add_at_once(rt, &cells, adders.as_mut_slice());
    let mut places = 0u64;
    let mut in_order = true;
    for adder in adders.as_slice() {
        places = places.wrapping_add(adder.places);
        in_order = in_order && adder.in_order;
    }
    let passes = passes_of(alloc, &cells, adders)?;
    let finals = cells.close(alloc, passes)?;
    Ok(Outcome {
        places,
        in_order,
        finals,
    })
}

#[test]
fn sixteen_threads_add_to_one_cell(rt: HostRuntime) -> Result<(), Fail> {
    let Outcome {
        places,
        in_order,
        finals,
    } = add_and_close(&rt, rt.alloc())?;
    let all = 1_600_000u64;
    assert_eq!(rt; finals.as_slice(), [1_600_000].as_slice());
    assert!(rt; in_order);
    assert_eq!(rt; places, all * (all - 1) / 2);
    Ok(())
}
