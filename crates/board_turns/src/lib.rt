//! A turn round a board: who has it may look at the board and put entries of its rank to it (MPI 3.1, sections 11.2 and
//! 11.5, in this project's profile).
#![tactic(auto)]

mod seats;
mod turning;
mod turns;

pub use seats::{BoardSeat, BoardTurn};
pub use turning::Turning;
