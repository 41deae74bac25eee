//! The touches of one access, element by element, over any memory and any keeper of items (MPI 3.1, sections 11.3 and
//! 11.7.1).
#![tactic(auto)]

mod changes;
mod touches;

pub use changes::{change_of, dtype_of};
pub use touches::{Progress, touch_on};
