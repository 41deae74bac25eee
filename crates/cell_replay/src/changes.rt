//! What the call of an access makes of an element.
ghost use Rattle.std.specs.Prelude.{◌≡◌, ◌<◌};
ghost use Rattle.call_rules.specs.WellFormed.{IsWrittenCall};
ghost use Rattle.cell_replay.specs.Kept.{change_in as change_of_access, dtype_of as dtype_moved, first_byte_at};

use access_steps::change_of;
use call_rules::Change;
use rma_types::{Access, Call, Dtype};

/// The datatype of the elements that a call moves (MPI 3.1, section 11.3).
pub(crate) fn dtype_of(call: &Call) -> Option<Dtype>
    ensures { result ≡ dtype_moved call.now }
{
    match call {
        Call::Put { dtype, .. }
        | Call::Get { dtype, .. }
        | Call::Acc { dtype, .. }
        | Call::GetAcc { dtype, .. }
        | Call::Fop { dtype, .. }
        | Call::Cas { dtype, .. }
        | Call::Load { dtype, .. }
        | Call::Store { dtype, .. } => Some(*dtype),
        _ => None,
    }
}

/// Where the element of an access begins in its cell, of 4 bytes.
fn first_byte(access: &Access, dtype: Dtype, element: u32) -> u8
    ensures { result ≡ first_byte_at access.now dtype element }
{
    let address = u64::from(access.lo) + u64::from(element) * u64::from(dtype.size());
    (address % 4) as u8
}

/// The change that an access of a call makes to one of its elements (MPI 3.1, section 11.3).
pub(crate) fn change_in(access: &Access, call: &Call, element: u32) -> Option<Change>
    requires { IsWrittenCall call.now }
    ensures { result ≡ change_of_access access.now call.now element }
{
    match dtype_of(call) {
        Some(dtype) => {
            if element < access.len / dtype.size() {
                change_of(call, element, first_byte(access, dtype, element))
            } else {
                None
            }
        }
        None => None,
    }
}
