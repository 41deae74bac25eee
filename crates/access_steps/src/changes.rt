//! What a call does to each of its elements.
ghost use Rattle.std.specs.Prelude.{◌≡◌, ◌<◌, slice_index};
ghost use Rattle.std.specs.List.{AllByRecursion};
ghost use Rattle.rma_types.specs.Datatypes.{size_of};
ghost use Rattle.call_rules.specs.Numbers.{patterns_of};
ghost use Rattle.call_rules.specs.Transfers.{change_of as change_of_transfer};
ghost use Rattle.call_rules.specs.WellFormed.{IsWrittenCall, IsWrittenTransfer};
ghost use Rattle.access_steps.specs.Plans.{element_size, change_by};

use call_rules::Change;
use rma_types::{Action, Call, Dtype, Op, Transfer};

/// The operand of an element; 0 where the transfer has none for it.
fn operand_at(transfer: &Transfer<'_>, element: u32) -> u32
    requires { AllByRecursion (λ pattern. pattern < patterns_of transfer.now.dtype)
        transfer.now.operands }
    ensures { result ≡ slice_index transfer.now.operands element }
{
    match transfer.operands.as_slice().get(element as usize) {
        Some(value) => *value as u32,
        None => 0,
    }
}

/// The change that a transfer makes to one of its elements.
fn change_in(transfer: &Transfer<'_>, element: u32, first_byte: u8) -> Option<Change>
    requires { IsWrittenTransfer transfer.now }
    ensures { result ≡ change_of_transfer transfer.now element first_byte }
{
    if transfer.op == Op::NoOp {
        return None;
    }
    let compare = match transfer.compare {
        None => None,
        Some(pattern) => Some(pattern as u32),
    };
    Some(Change {
        first_byte,
        dtype: transfer.dtype,
        op: transfer.op,
        operand: operand_at(transfer, element),
        compare,
    })
}

/// The change that a call makes to one of its elements, which lies at `first_byte` of its cell; `None` where the call
/// only reads, as a get, a load and a NO_OP do. Behind its last element a call has operands of 0 (MPI 3.1, sections
/// 11.3.1, 11.3.2 and 11.3.4).
pub fn change_of(call: &Call, element: u32, first_byte: u8) -> Option<Change>
    requires { IsWrittenCall call.now }
    ensures { result ≡ change_by call.now element first_byte }
{
    match call.action() {
        Action::Moves(transfer) => change_in(&transfer, element, first_byte),
        _ => None,
    }
}

/// The datatype of the elements that a call moves, and MPI_BYTE of a call that moves none (MPI 3.1, section 11.3).
pub fn dtype_of(call: &Call) -> Dtype
    ensures { size_of result ≡ element_size call.now }
{
    match call.action() {
        Action::Moves(transfer) => transfer.dtype,
        _ => Dtype::Byte,
    }
}
