//! The steps of a rank by the accesses for which they are what is looked for.
ghost use Rattle.std.specs.Prelude.{◌≡◌, ◌++◌, ◌∷◌, [], cond, OnOk, IfOk};
ghost use Rattle.std.specs.List.{filter};
ghost use Rattle.first_points.specs.Keys.{AreListed, has_key, key_eq, listed_at};
ghost use Rattle.first_points.specs.declared.keys.StepKey.{StepKey as KeyValue};

use crate::keys::{Aim, StepKey, step_key};
use rank_records::KeptStep;
use rma_types::{Items, NoMemory, Script};
use std::alloc::Global;
use std::collections::HashMap;

/// One step more for a key.
fn put(
    alloc: Global,
    table: &mut HashMap<StepKey, Items<KeptStep>>,
    key: StepKey,
    step: KeptStep,
) -> Result<(), NoMemory>
    ensures { OnOk result ((other : KeyValue) → listed_at table.new other ≡
        cond (key_eq key other) (listed_at table.old key ++ step ∷ []) (listed_at table.old other)) }
{
    match table.get_mut(&key) {
        Some(steps) => match steps.push(step) {
            Ok(()) => Ok(()),
            Err(_) => Err(NoMemory),
        },
        None => {
            let mut steps = Items::new(alloc);
            if steps.push(step).is_err() {
                return Err(NoMemory);
            }
            match table.insert(key, steps) {
                Ok(_) => Ok(()),
                Err(_) => Err(NoMemory),
            }
        }
    }
}

/// One step more, where it has a key.
fn put_step(
    alloc: Global,
    script: &Script,
    aim: Aim,
    table: &mut HashMap<StepKey, Items<KeptStep>>,
    step: &KeptStep,
) -> Result<(), NoMemory>
    ensures { OnOk result ((key : KeyValue) → listed_at table.new key ≡
        listed_at table.old key ++ filter (has_key script.now aim key) (step.now ∷ [])) }
{
    match step_key(script, aim, step) {
        Some(key) => put(alloc, table, key, *step),
        None => Ok(()),
    }
}

/// The steps at which accesses may aim, by their keys.
pub(crate) fn table_of(
    alloc: Global,
    script: &Script,
    aim: Aim,
    steps: &[KeptStep],
) -> Result<HashMap<StepKey, Items<KeptStep>>, NoMemory>
    ensures { IfOk result (λ table. AreListed script.now aim steps.now table) }
{
    let mut table: HashMap<StepKey, Items<KeptStep>> = HashMap::new(alloc);
    for step in steps {
        put_step(alloc, script, aim, &mut table, step)?;
    }
    Ok(table)
}

/// The steps that the table has for a key.
pub(crate) fn steps_for(table: &HashMap<StepKey, Items<KeptStep>>, key: StepKey) -> &[KeptStep]
    ensures { result.now ≡ listed_at table.now key }
{
    match table.get(&key) {
        Some(steps) => steps.as_slice(),
        None => &[],
    }
}
