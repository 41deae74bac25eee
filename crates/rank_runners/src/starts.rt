//! The beginning of a run.
ghost use Rattle.std.specs.Prelude.{◌≡◌, ◌+◌, ◌<◌, ◌≤◌, ℕ, [], map, replicate, IfOk};
ghost use Rattle.call_rules.specs.Layout.{layout as memory_layout, cells_of as cells_in};
ghost use Rattle.call_rules.specs.Pieces.{numbers_from};
ghost use Rattle.call_rules.specs.Touches.{empty_cell};
ghost use Rattle.call_rules.specs.WellFormed.{IsWellFormed};
ghost use Rattle.rank_engine.specs.RankStates.{new_state};

use cell_face::PlainMemory;
use rank_engine::Agent;
use rma_record::Log;
use rma_types::{Delay, Layout, NoMemory, Script};
use std::alloc::Global;

/// The cells of all ranks.
pub(crate) fn cells_of(layout: &Layout) -> u32
    requires { cells_in layout.now ≤ 16384 }
    ensures { result ≡ cells_in layout.now }
{
    let mut cells = 0u32;
    for part in layout.parts.as_slice() {
        cells += part.bytes / 4;
    }
    cells
}

/// The memory before the first turn: no cell has had an update.
pub(crate) fn new_memory(alloc: Global, layout: &Layout) -> Result<PlainMemory, NoMemory>
    requires { cells_in layout.now ≤ 16384 }
    ensures cells { IfOk result (λ memory. memory.cells ≡
        replicate (cells_in layout.now) empty_cell) }
    ensures share { IfOk result (λ memory. memory.share ≡ 4294967295) }
{
    match vec![in alloc; 0u32; cells_of(layout) as usize] {
        Ok(zeros) => PlainMemory::new(alloc, &zeros),
        Err(_) => Err(NoMemory),
    }
}

/// The ranks before their first calls.
pub(crate) fn new_agents<'s>(
    alloc: Global,
    script: &'s Script,
    layout: &'s Layout,
    delay: Delay,
    seed: u32,
) -> Result<Vec<Agent<'s, Log>>, NoMemory>
    requires formed { IsWellFormed script.now }
    requires layout { layout.now ≡ memory_layout script.now }
    ensures { IfOk result (λ agents. agents.items ≡
        map (λ (rank : ℕ). new_state script.now delay seed rank 4294967295 []) (numbers_from 0 script.now.ranks)) }
{
    let mut agents = Vec::new(alloc);
    for rank in 0..script.ranks {
        let agent = Agent::new(alloc, rank, script, layout, delay, seed, Log::new(alloc))?;
        match agents.push(agent) {
            Ok(()) => {}
            Err(_) => return Err(NoMemory),
        }
    }
    Ok(agents)
}
