//! Scripts as text: the canonical text of a script.
//!
//! Each line is printed by the table of places of the script language: the word of its form, and behind it what the
//! line says at each of the form's places, one space before each token.
#![tactic(auto)]

mod calls;
mod lines;
mod said;
mod scripts;
mod tokens;

pub use scripts::script_text;
