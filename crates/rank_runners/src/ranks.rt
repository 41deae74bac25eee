//! The steps of one rank, over a memory that one thread uses alone.
ghost use Rattle.std.specs.Prelude.{◌≡◌, ◌+◌, ◌≤◌, true, false, IfOk, OnOk};
ghost use Rattle.cell_face.specs.PlainCells.{plain_face};
ghost use Rattle.rank_engine.specs.BoardAnswers.{IsBoardOf, StepsAtBoard};
ghost use Rattle.rank_engine.specs.DataAnswers.{HasRoom};
ghost use Rattle.rank_engine.specs.RankStates.{IsBetween, needs_entry};
ghost use Rattle.rank_runners.specs.Steps.{IsDelivery, IsStep};

use cell_face::{NoNote, PlainMemory};
use rank_engine::{Agent, Turned};
use rma_record::Log;
use rma_types::NoMemory;
use sync_board::Board;

/// A step of a rank at the board; whether it waits.
pub(crate) fn step_at_board(
    agent: &mut Agent<Log>,
    memory: &mut PlainMemory,
    board: &mut Board<NoNote>,
) -> Result<bool, NoMemory>
    requires needs { needs_entry agent.old ≡ true }
    requires board { IsBoardOf agent.old board.old (plain_face memory.old) }
    ensures { IfOk result (λ waits. StepsAtBoard agent.old agent.new waits
        board.old board.new (plain_face memory.old) (plain_face memory.new)) }
{
    agent.has_room();
    match agent.next_board(memory, board)? {
        Turned::NotYet => Ok(true),
        _ => Ok(false),
    }
}

/// A step of a rank that tries no entry.
pub(crate) fn step_on_memory(
    agent: &mut Agent<Log>,
    memory: &mut PlainMemory,
) -> Result<(), NoMemory>
    requires needs { needs_entry agent.old ≡ false }
    requires room { HasRoom agent.old (plain_face memory.old) }
    requires between { IsBetween agent.old }
    ensures { OnOk result (IsStep agent.old agent.new memory.old memory.new) }
{
    agent.has_room();
    agent.next_data(memory)?;
    Ok(())
}

/// Delivers the first pending access of a rank; whether there was one.
pub(crate) fn deliver_first(
    agent: &mut Agent<Log>,
    memory: &mut PlainMemory,
) -> Result<bool, NoMemory>
    requires room { HasRoom agent.old (plain_face memory.old) }
    requires between { IsBetween agent.old }
    ensures { IfOk result
        (λ delivered. IsDelivery delivered agent.old agent.new memory.old memory.new) }
{
    agent.has_room();
    match agent.drain(memory)? {
        Turned::Ended => Ok(false),
        _ => Ok(true),
    }
}
