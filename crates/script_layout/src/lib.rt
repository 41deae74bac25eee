//! Where the memory of a script's ranks lies.
//!
//! Each rank's memory begins with its space, and a part for each `allocate` of its list follows, in order. The
//! ranks' cells follow each other.
#![tactic(auto)]

mod layouts;
mod sizes;

pub use layouts::layout_of;
