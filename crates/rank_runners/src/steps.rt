//! The whole run on one thread.
ghost use Rattle.std.specs.Prelude.{◌≡◌, ◌+◌, ◌≤◌, length, sum_by, IfOk};
ghost use Rattle.call_rules.specs.Layout.{IsWithinLimits, layout as memory_layout};
ghost use Rattle.call_rules.specs.WellFormed.{IsWellFormed};
ghost use Rattle.lawful_runs.specs.LawfulRun.{IsLawful};
ghost use Rattle.order_rules.specs.OrderedReads.{TouchesAgree};
ghost use Rattle.step_runs.specs.StepRun.{most_turns as turn_limit, step_run};

use crate::runners::Runner;
use crate::starts::cells_of;
use rma_record::Run;
use rma_types::{Delay, Layout, NoMemory, Order, Script};
use script_layout::layout_of;
use std::alloc::Global;
use step_histories::step_run_is_assembled;
use value_laws::step_reads_are_ordered;

/// More turns than the run of a script has.
fn most_turns(script: &Script) -> u32
    requires { IsWithinLimits script.now }
    ensures { result ≡ turn_limit script.now }
{
    let mut calls = 0u32;
    for list in script.calls.as_slice() {
        calls += list.len() as u32;
    }
    64 * (calls + 1)
}

/// Runs a script whose memory has this layout.
fn run_over<'s>(
    alloc: Global,
    script: &'s Script,
    layout: &'s Layout,
    order: Order,
    delay: Delay,
    seed: u32,
) -> Result<Run, NoMemory>
    requires formed { IsWellFormed script.now }
    requires layout { layout.now ≡ memory_layout script.now }
    ensures { IfOk result (λ run. run ≡ step_run script.now order delay seed) }
{
    let mut runner = Runner::new(alloc, script, layout, order, delay, seed)?;
    runner.run(order, script.ranks, most_turns(script))?;
    runner.drain(script.ranks)?;
    runner.into_run(alloc, cells_of(layout))
}

/// Runs a script on one thread, in turns of its ranks: each takes a step, at the board or on memory, until no rank may
/// have a turn. Then what is pending is delivered (MPI 3.1, sections 11.5 and 11.7, in this project's profile).
///
/// The same script, order, delay and seed give the same run. The seed is used by the order and the delay that draw.
pub fn run_steps(
    alloc: Global,
    script: &Script,
    order: Order,
    delay: Delay,
    seed: u32,
) -> Result<Run, NoMemory>
    requires well_formed { IsWellFormed script.now }
    // It is the one run that the definitions build turn by turn.
    ensures steps { IfOk result (λ run. run ≡ step_run script.now order delay seed) }
    // That run is lawful for its delay.
    ensures lawful { IfOk result (IsLawful script.now delay) }
    // Its touches agree with its order.
    ensures agrees { IfOk result (TouchesAgree script.now) }
{
    step_run_is_assembled();
    step_reads_are_ordered();
    let layout = layout_of(alloc, script)?;
    run_over(alloc, script, &layout, order, delay, seed)
}
