//! Two threads over each value of a run.
ghost use Rattle.std.specs.Prelude.{◌≡◌};

use cell_face::NoNote;
use cell_words::{CellNote, CellSeat, Cells};
use listed_values::Listed;
use rank_engine::Agent;
use rma_record::Log;
use rma_types::{Gate, Layout, Script};
use std::thread::{Threads, join};
use sync_board::Board;
use turn_lock::{Turn, TurnSeat};

fn look<T>(_value: &T) {}

/// Two threads look at one value.
pub fn join_over<R: Threads, T: Sync>(rt: &R, value: &T) {
    join(rt, || { look(value) }, || { look(value) });
}

/// Two threads are handed a value each, and hand it back.
pub fn join_with<R: Threads, T: Send + Drop>(rt: &R, one: T, other: T) -> (T, T)
    ensures { result ≡ (one, other) }
{
    join(
        rt,
        || -> T
            ensures { result ≡ one }
        { one },
        || -> T
            ensures { result ≡ other }
        { other },
    )
}

/// Two threads at one gate.
pub fn join_at<R: Threads, G: Gate>(rt: &R, gate: &G) {
    join(rt, || { gate.pass(0, 0) }, || { gate.rest(1) });
}

/// What all threads of a run share.
#[derive(Drop)]
pub struct Shared<'r, V: Listed> {
    pub script: &'r Script,
    pub layout: &'r Layout,
    pub cells: &'r Cells,
    pub turn: &'r Turn<V>,
}

/// What one thread has of a run, and hands on with the turn.
#[derive(Drop)]
pub struct Sent<'r, V: Listed> {
    pub agent: Agent<'r, Log>,
    pub log: Log,
    pub board: Board<CellNote<'r>>,
    pub plain_board: Board<NoNote>,
    pub seat: TurnSeat<V>,
    pub memory: CellSeat<'r>,
}

/// Two threads share all of a run, and each is handed a part of it.
pub fn cross<'r, R: Threads, V: Listed + Send>(
    rt: &R,
    shared: Shared<'r, V>,
    one: Sent<'r, V>,
    other: Sent<'r, V>,
) {
    join_over(rt, shared.script);
    join_over(rt, shared.layout);
    join_over(rt, shared.cells);
    join_over(rt, shared.turn);
    join_with(rt, one.agent, other.agent);
    join_with(rt, one.log, other.log);
    join_with(rt, one.board, other.board);
    join_with(rt, one.plain_board, other.plain_board);
    join_with(rt, one.seat, other.seat);
    join_with(rt, one.memory, other.memory);
}
