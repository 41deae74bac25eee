//! The end of a run.
ghost use Rattle.std.specs.Prelude.{◌≡◌, length, map, IfOk};
ghost use Rattle.std.specs.List.{list_all};
ghost use Rattle.call_rules.specs.declared.cells.Cell.{Cell};
ghost use Rattle.rank_engine.specs.RankStates.{RankState};

use cell_face::PlainMemory;
use rank_engine::Agent;
use rma_record::{Log, Logs};
use rma_types::{Items, NoMemory};
use std::alloc::Global;

/// Whether all ranks have ended.
pub(crate) fn have_ended(agents: &[Agent<Log>]) -> bool
    ensures { result ≡ list_all (λ (state : RankState). state.agent.ended) agents.now }
{
    agents.iter().all(|agent| agent.has_ended())
}

/// The logs of the ranks.
pub(crate) fn logs_of(alloc: Global, agents: Vec<Agent<Log>>) -> Result<Logs, NoMemory>
    ensures { IfOk result
        (λ logs. logs ≡ map (λ (state : RankState). state.agent.log) agents.entry.items) }
{
    let mut logs = Vec::new(alloc);
    for agent in agents {
        logs.push(agent.into_log()).map_err(|_| NoMemory)?;
    }
    Ok(Logs::from_vec(logs))
}

/// The bits of so many cells, which are all.
pub(crate) fn bits_of(
    alloc: Global,
    memory: &PlainMemory,
    cells: u32,
) -> Result<Items<u32>, NoMemory>
    requires { length memory.now.cells ≡ cells }
    ensures { IfOk result (λ bits. bits ≡ map (λ (cell : Cell). cell.bits) memory.now.cells) }
{
    let mut bits = Items::new(alloc);
    for cell in 0..cells {
        bits.push(memory.bits(cell)).map_err(|_| NoMemory)?;
    }
    Ok(bits)
}
