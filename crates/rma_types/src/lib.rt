//! The plain data of a run of MPI one-sided calls: datatypes, operations, error classes, calls and scripts.
//!
//! Every type here is a number, an enum or a list, and contracts see it as that.
#![tactic(auto)]

mod accesses;
mod actions;
mod call_table;
mod calls;
mod classes;
mod copies;
mod dtypes;
mod findings;
mod gates;
mod items;
mod ops;
mod schedules;
mod scripts;

pub use accesses::{Access, Id, Kind, Step};
pub use actions::{Action, Creation, Operands, Ranks, Synchronisation, Target, Transfer};
pub use calls::{Asserts, Call, Flavor, Lock};
pub use classes::Class;
pub use dtypes::Dtype;
pub use findings::{Finding, Model, Rule};
pub use gates::{Gate, OpenGate};
pub use items::{Bits, Group, Items};
pub use ops::Op;
pub use schedules::{Delay, Order};
pub use scripts::{CallBase, Layout, MemoryPart, NoMemory, Part, Script};
