//! The windows of a rank and its ranges of memory: MPI 3.1, sections 11.2 and 11.3.
#![tactic(auto)]

mod attached;
mod numbers;
mod own;
mod places;
mod region;
mod sorted;
mod table;
mod window;

pub use attached::Attached;
pub use call_rules::Piece;
pub use own::OwnRanges;
pub use places::{Range, address, piece, place};
pub use table::WindowTable;
pub use window::Shape;
