//! Scripts as text: the reader of the script language.
//!
//! A text is read line by line and a line token by token, without memory of its own for either: a line takes memory for
//! its values or its group alone, and a repeat for what its expansion holds.
#![tactic(auto)]

mod calls;
mod copies;
mod errors;
mod forms;
mod integers;
mod lexing;
mod numerals;
mod parses;
mod readers;
mod tokens;
mod totals;
mod words;

pub use parses::parse;
pub use script_language::{Fault, FaultKind};
