//! Texts with the scripts that they say or their faults, as theorems over the definitions of the script language.
//!
//! Each function does nothing: its clauses are the theorems, whose statements stand in `specs/`.
#![tactic(auto)]

mod faults;
mod limits;
mod tables;
mod texts;

pub use faults::{each_kind_of_fault, first_of_several_faults};
pub use limits::{limit_of_a_text, limits_of_a_line, limits_of_a_script};
pub use tables::each_call_has_a_form;
pub use texts::{canonical_texts, other_texts};
