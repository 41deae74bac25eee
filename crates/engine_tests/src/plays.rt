//! Plays of whole scripts.
ghost use Rattle.std.specs.Prelude.{◌≡◌, ◌≢◌, ◌≤◌, OnOk};
ghost use Rattle.call_rules.specs.Layout.{layout as memory_layout};
ghost use Rattle.call_rules.specs.WellFormed.{IsWellFormed};
ghost use Rattle.cell_face.specs.Faces.{cell_count};
ghost use Rattle.cell_words.specs.Holders.{face_of};
ghost use Rattle.rank_engine.specs.DataAnswers.{GivesRoom};
ghost use Rattle.engine_tests.specs.Seated.{IsSeated};

use crate::players::{Played, Player};
use crate::seats::{last_two, new_board, new_cells, new_memory};
use cell_words::CellNote;
use moving_memory::MovingMemory;
use rank_engine::Agent;
use rma_record::Log;
use rma_types::{Delay, Layout, NoMemory, Script};
use script_layout::layout_of;
use std::alloc::Global;
use sync_board::Board;

/// More steps than any rank here takes.
const MOST: u32 = 64;

/// What becomes of rank 0 over this memory, where no other rank plays.
fn play_over<'r>(
    alloc: Global,
    script: &'r Script,
    layout: &'r Layout,
    delay: Delay,
    seed: u32,
    memory: MovingMemory<'r>,
) -> Result<Played, NoMemory>
    requires formed { IsWellFormed script.now }
    requires layout { layout.now ≡ memory_layout script.now }
    requires cells { 16384 ≤ cell_count (face_of memory) }
    requires room { GivesRoom script.now 0 (face_of memory).share }
{
    let mut memory = memory;
    let mut board = new_board(alloc, script, layout, &mut memory)?;
    let agent = Agent::new(alloc, 0, script, layout, delay, seed, Log::new(alloc))?;
    let mut player = Player::new(alloc, agent, memory);
    player.play(&mut board, MOST)?;
    player.drain(MOST)?;
    Ok(player.into_played())
}

/// What becomes of rank 0, which has this share, where no other rank plays. `late` says for its attempts, the last one
/// first, whether another's update comes before it; three may.
pub fn play_alone(
    alloc: Global,
    script: &Script,
    delay: Delay,
    seed: u32,
    share: u32,
    late: &[bool],
) -> Result<Played, NoMemory>
    requires formed { IsWellFormed script.now }
    requires room { GivesRoom script.now 0 share }
    requires few { share ≤ 100 }
{
    let layout = layout_of(alloc, script)?;
    let (cells, mut passes) = new_cells(alloc, &[share, 3])?;
    let pair = last_two(&mut passes)?;
    let memory = new_memory(&cells, pair, Vec::from_slice(alloc, late)?);
    play_over(alloc, script, &layout, delay, seed, memory)
}

/// Two ranks take turns at one board, each until it waits or has ended; the first has the last turn too.
pub fn take_turns<'r>(
    first: &mut Player<'r>,
    second: &mut Player<'r>,
    board: &mut Board<CellNote<'r>>,
) -> Result<(), NoMemory>
    requires apart { second.old.agent.agent.rank ≢ first.old.agent.agent.rank }
    requires first { IsSeated first.old.agent board.old (face_of first.old.memory) }
    requires second { IsSeated second.old.agent board.old (face_of second.old.memory) }
    ensures first { OnOk result
        (IsSeated first.new.agent board.new (face_of first.new.memory)) }
    ensures second { OnOk result
        (IsSeated second.new.agent board.new (face_of second.new.memory)) }
{
    first.play(board, MOST)?;
    second.play(board, MOST)?;
    first.play(board, MOST)
}
