//! A memory in which another's updates come between, for tests of what is done over any memory.
//!
//! It serves one thread, and tells nothing of its cells. Its share is finite, it tells the updates made through it, and
//! its notes tell their fronts.
#![tactic(auto)]

mod moving;

pub use moving::MovingMemory;
