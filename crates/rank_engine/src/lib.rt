//! One rank of a run: its steps at the board and on memory, for every script, delay and seed (MPI 3.1, sections 11.2 to
//! 11.7, in this project's profile of schedules).
//!
//! An [`Agent`] keeps what the definitions' rank has. It says whether its next step is at the board
//! ([`Agent::needs_board`]), and takes it: [`Agent::next_board`] there, [`Agent::next_data`] by itself, over any memory
//! and any keeper of items.
#![tactic(auto)]

mod agent;
mod answers;
mod asking;
mod board_steps;
mod courses;
mod data;
mod judging;
mod learning;
mod moves;
mod tokens;
mod updates;

pub use agent::Agent;
pub use answers::Turned;
pub use updates::share_for;
