//! Findings in both models, states of cells, and ordered reads of whole runs.
use crate::plays::played;
use crate::scripts::{PUT_BESIDE_LOAD, PUT_FLUSHED, id};
use cell_replay::{ordered_read, state_at};
use conflict_check::findings;
use rma_types::{Finding, Model, NoMemory, Rule};
use std::process::Abort;
use vector_clocks::clocks_of;

/// A load without a sync is a finding of the separate model alone; one that nothing orders is a finding of both.
#[test]
fn findings_go_by_the_model(rt: HostRuntime) -> Result<(), NoMemory> {
    let flushed = Finding {
        first: id(0, 3),
        second: id(1, 5),
        rule: Rule::S1,
    };
    let apart = Finding {
        first: id(0, 3),
        second: id(1, 3),
        rule: Rule::S1,
    };
    let rows: [(&str, Model, &[Finding]); 4] = [
        (PUT_FLUSHED, Model::Separate, &[flushed]),
        (PUT_FLUSHED, Model::Unified, &[]),
        (PUT_BESIDE_LOAD, Model::Separate, &[apart]),
        (PUT_BESIDE_LOAD, Model::Unified, &[apart]),
    ];
    for (text, model, wanted) in rows {
        let (script, run) = played(rt.alloc(), text)?;
        let clocks = clocks_of(rt.alloc(), &script, &run)?;
        let found = findings(rt.alloc(), &script, &run, &clocks, model)?;
        assert!(rt; found.as_slice() == wanted, "{text} {model:?}");
    }
    Ok(())
}

/// Each rank has two cells, and the put changes the first of rank 1.
#[test]
fn a_cell_has_the_state_after_its_updates(rt: HostRuntime) -> Result<(), NoMemory> {
    let (script, run) = played(rt.alloc(), PUT_FLUSHED)?;
    for (cell, place, expected) in [(2, 0, 0), (2, 1, 5), (0, 0, 0)] {
        let bits = state_at(rt.alloc(), &script, &run, cell, place)?;
        assert!(rt; bits == expected);
    }
    Ok(())
}

#[test]
fn a_read_has_what_is_ordered_before_it(rt: HostRuntime) -> Result<(), NoMemory> {
    for (text, read, expected) in [(PUT_FLUSHED, id(1, 5), 5), (PUT_BESIDE_LOAD, id(1, 3), 0)] {
        let (script, run) = played(rt.alloc(), text)?;
        let clocks = clocks_of(rt.alloc(), &script, &run)?;
        let values = ordered_read(rt.alloc(), &script, &run, &clocks, read)?;
        assert!(rt; values.as_slice() == [expected].as_slice());
    }
    Ok(())
}
