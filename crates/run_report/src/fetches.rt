//! The numbers that an access fetched.
ghost use Rattle.std.specs.Prelude.{◌≡◌, ◌+◌, ◌++◌, ◌<◌, length, OnOk};
ghost use Rattle.std.specs.String.{string_bytes};
ghost use Rattle.run_report.specs.Chains.{AreChains};
ghost use Rattle.run_report.specs.Parts.{fetches_as, number_found, numbers_found};

use crate::chains::Chains;
use crate::numbers::fetched_number;
use rma_record::Item;
use rma_types::{Access, Call, Dtype};
use std::alloc::AllocError;

/// The datatype of what a call fetches, where it fetches (MPI 3.1, section 11.3).
pub(crate) fn fetched_type(call: &Call) -> Option<Dtype>
    ensures { result ≡ fetches_as call.now }
{
    match call {
        Call::Get { dtype, .. }
        | Call::GetAcc { dtype, .. }
        | Call::Fop { dtype, .. }
        | Call::Cas { dtype, .. }
        | Call::Load { dtype, .. } => Some(*dtype),
        _ => None,
    }
}

/// Writes the number that a touch of the access found, behind a space.
fn write_found(
    text: &mut String,
    access: &Access,
    dtype: Dtype,
    item: &Item,
) -> Result<(), AllocError>
    ensures { OnOk result (string_bytes text.new ≡ string_bytes text.old ++
        number_found access.now dtype item.now) }
{
    match item {
        Item::Touch { element, bits, .. } => {
            let number = fetched_number(access, dtype, *element, *bits);
            write!(text, " {number}")
        }
        _ => Ok(()),
    }
}

/// Writes the numbers that the touches of the access found, each behind a space. Its `Issue` has the index.
pub(crate) fn write_numbers(
    text: &mut String,
    access: &Access,
    dtype: Dtype,
    calls: usize,
    items: &[Item],
    chains: &Chains,
    index: usize,
) -> Result<(), AllocError>
    requires index { index < length items.now }
    requires chains { AreChains calls items.now 0 chains.now.first.items chains.now.next.items }
    ensures { OnOk result
        (string_bytes text.new ≡ string_bytes text.old ++ numbers_found access.now dtype calls index items.now) }
{
    let mut at = chains.first(calls + index);
    'touches: while at < items.len() {
        write_found(text, access, dtype, &items[at])?;
        at = chains.next(at);
    }
    Ok(())
}
