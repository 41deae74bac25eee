//! What each entry of the board gains from the entries before it.
#![tactic(auto)]

mod by_place;
mod deeds;
mod gains;
mod ledger;
mod plans;
mod slots;
mod tables;
mod tokens;
mod windows;

pub use by_place::GainsByPlace;
pub use cell_face::{Front, Token};
pub use deeds::Reach;
pub use gains::Gains;
pub use windows::{begins_window, window_named};
