//! The board of a run: the entries of all ranks in one order, and what follows from it (MPI 3.1, sections 11.2
//! and 11.5). Here stand the tables of what each rank has done on a window.
#![tactic(auto)]

mod answers;
mod asked;
mod board;
mod counts;
mod entering;
mod epoch_judges;
mod grown;
mod judges;
mod layouts;
mod listing;
mod lists;
mod lock_state;
mod made;
mod matches;
mod named;
mod parts;
mod places;
mod preparing;
mod reach;
mod region_table;
mod regions;
mod round_table;
mod rounds;
mod side_table;
mod sides;
mod state;
mod truths;
mod window_record;

pub use answers::{Decided, EntryRow};
pub use board::Board;
pub use listing::GivenEntry;
