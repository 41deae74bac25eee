//! The epochs of a rank on its windows: MPI 3.1, section 11.5.
//!
//! [`EpochState`] has, for each of the window names w0 to w31, the access epoch and the exposure epoch in which the
//! rank is.
//! It tells the error class of a call (sections 8.4 and 11.6) by the call's arguments and these epochs, and what the
//! epochs are after a call that was accepted. Nothing here takes memory.
#![tactic(auto)]

mod access;
mod classes;
mod exposure;
mod ranks;
mod state;
mod windows;

pub use state::EpochState;
