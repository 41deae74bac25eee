//! A rank that shares the board and the cells with others, over any memory and any turn round the board (MPI 3.1,
//! sections 11.5 and 11.7, in this project's profile).
//!
//! A [`Rank`] goes on until it ends or waits for others ([`Rank::go_on`]), learns what others know
//! ([`Rank::catch_up`]), and at its end delivers what is pending ([`Rank::drain`]).
#![tactic(auto)]

mod drains;
mod passes;
mod ranks;
mod standings;
mod steps;

pub use ranks::{Parts, Rank};
pub use standings::Standing;
