//! The bytes of memory that stand for a space and for a call.
ghost use Rattle.std.specs.Prelude.{◌≡◌, ◌≤◌};
ghost use Rattle.call_rules.specs.Layout.{round_up, call_bytes};

use rma_types::Call;

/// The bytes of a space, up to a multiple of 8.
pub fn space_size(space: u32) -> u32
    requires { space ≤ 65536 }
    ensures { result ≡ round_up space }
{
    8 * ((space + 7) / 8)
}

/// The bytes of the part of an `allocate`, and 0 for any other call.
pub fn call_size(call: &Call) -> u32
    ensures { result ≡ call_bytes call.now }
{
    match call {
        Call::Allocate { bytes, .. } => {
            if *bytes < 0 {
                0
            } else {
                8 * ((*bytes as u32 + 7) / 8)
            }
        }
        _ => 0,
    }
}
