//! The error class that a rank gives a call by its own tests (MPI 3.1, sections 8.4, 11.2, 11.3, 11.5 and 11.6).
ghost use Rattle.std.specs.Prelude.{◌≡◌, ◌<◌, [], ◌∷◌, IfSome};
ghost use Rattle.rma_types.specs.declared.classes.Class.TheVariants.{Request as RequestClass};
ghost use Rattle.std.specs.Option.{option_map_or};
ghost use Rattle.rma_types.specs.Actions.{action_of};
ghost use Rattle.call_rules.specs.WellFormed.{IsWrittenCall};
ghost use Rattle.rank_rules.specs.Classes.{least_class, first_class as class_of_first};
ghost use Rattle.rank_rules.specs.Knowledge.{own_class as class_by_rank};
ghost use Rattle.rank_rules.specs.Requests.{is_live_request, request_class as class_of_request};

use delivery_queue::Pending;
use rank_epochs::EpochState;
use rank_rules::first_class;
use rma_types::{Call, Class};
use window_regions::WindowTable;

/// The class with the smaller number.
fn least(a: Option<Class>, b: Option<Class>) -> Option<Class>
    ensures { result ≡ least_class a b }
{
    match (a, b) {
        (None, other) => other,
        (Some(class), None) => Some(class),
        (Some(class), Some(other)) => {
            if other.number() < class.number() {
                Some(other)
            } else {
                Some(class)
            }
        }
    }
}

/// The class of a request form, which may name no live request.
fn form_class(queue: &Pending, req: Option<u8>) -> Option<Class>
    requires { IfSome req (λ name. name < 64) }
    ensures { result ≡ class_of_first (option_map_or
        (λ name. (is_live_request queue.now.requests name, RequestClass) ∷ []) req []) }
{
    match req {
        None => None,
        Some(name) => first_class(&[(queue.is_live(name), Class::Request)]),
    }
}

/// The class of a call for its request.
fn request_class(queue: &Pending, call: &Call) -> Option<Class>
    requires { IsWrittenCall call.now }
    ensures { result ≡ class_of_request queue.now.requests (action_of call.now) }
{
    match call {
        Call::Put { req, .. }
        | Call::Get { req, .. }
        | Call::Acc { req, .. }
        | Call::GetAcc { req, .. } => form_class(queue, *req),
        Call::WaitReq { req } | Call::TestReq { req } => {
            first_class(&[(!queue.is_live(*req), Class::Request)])
        }
        _ => None,
    }
}

/// The least class, by number, of those that the windows, the epochs and the requests of a rank give the call.
pub fn own_class(
    windows: &WindowTable,
    epochs: &EpochState,
    queue: &Pending,
    ranks: u8,
    call: &Call,
) -> Option<Class>
    requires written { IsWrittenCall call.now }
    requires ranks { windows.now.ranks ≡ ranks }
    ensures { result ≡ class_by_rank (record {
      windows = windows.now;
      epochs = epochs.now;
      requests = queue.now.requests;
    }) call.now }
{
    let by_request = request_class(queue, call);
    least(
        windows.judge(call),
        least(epochs.judge(call, ranks), by_request),
    )
}
