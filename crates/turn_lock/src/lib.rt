//! A turn that goes round a value: who has it may look at the value and add entries to its list, and gives it on.
//!
//! Who wants the turn draws a ticket, and tickets are served in order. Each seat knows the list as it last had it, and
//! which entries it gave; what the list has of this seat's entries is just those, whatever the other seats do.
#![tactic(auto)]

mod dealing;
mod plays;
mod seats;
mod turn;
mod views;

pub use listed_values::Listed;
pub use seats::{Turn, TurnSeat};
