//! A script that was read, and its run.
ghost use Rattle.std.specs.Prelude.{IfOk};
ghost use Rattle.rma_types.specs.declared.schedules.Delay.TheVariants.{Seeded};
ghost use Rattle.call_rules.specs.WellFormed.{IsWellFormed};
ghost use Rattle.lawful_runs.specs.LawfulRun.{IsLawful};
ghost use Rattle.order_rules.specs.OrderedReads.{TouchesAgree};

use order_laws::order_of_a_run;
use rank_runners::run_steps;
use rma_record::Run;
use rma_types::{Delay, NoMemory, Order, Script};
use script_reader::parse;
use std::alloc::Global;

/// The run of a script in the order robin and without delay.
fn run_of(alloc: Global, script: &Script) -> Result<Run, NoMemory>
    requires formed { IsWellFormed script.now }
    ensures lawful { IfOk result (IsLawful script.now Seeded) }
    ensures agrees { IfOk result (TouchesAgree script.now) }
{
    order_of_a_run();
    let run = run_steps(alloc, script, Order::Robin, Delay::None, 0)?;
    Ok(run)
}

/// The script that a text says, and its run in the order robin and without delay. A text that says no script is taken
/// for want of memory.
pub fn played(alloc: Global, text: &str) -> Result<(Script, Run), NoMemory>
    ensures formed { IfOk result (λ it. IsWellFormed it.0) }
    ensures lawful { IfOk result (λ it. IsLawful it.0 Seeded it.1) }
    ensures agrees { IfOk result (λ it. TouchesAgree it.0 it.1) }
{
    match parse(alloc, text.as_bytes()) {
        Ok(script) => {
            let run = run_of(alloc, &script)?;
            Ok((script, run))
        }
        Err(_) => Err(NoMemory),
    }
}
