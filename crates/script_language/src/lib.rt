//! The script language: definitions, the plain types that they speak of, and the tables of words and places in code.
//!
//! The definitions stand in `specs/`, one file a subject: lines and tokens, the spelling of words and names, the
//! numbers, the places of each form of a line, what a token says at its place, what a line does to the script so far,
//! and the reading of a whole text to its script or its first fault. The canonical text of a script is printed by the
//! same table of places.
//!
//! The code has each table once, for whoever reads a text and whoever prints one.
#![tactic(auto)]

mod call_forms;
mod drafts;
mod faults;
mod fields;
mod forms;
mod given;
mod line_places;
mod line_words;
mod places;
mod spellings;

pub use call_forms::call_form;
pub use drafts::Draft;
pub use faults::{Fault, FaultKind};
pub use fields::Fields;
pub use forms::{CallForm, Form};
pub use given::{asserts_with, is_given};
pub use line_places::{form_places, is_group, is_many};
pub use line_words::form_word;
pub use places::{Assertion, Place};
pub use spellings::{
    assertion_word, assertions, dtype_word, dtypes, lock_word, locks, op_word, ops,
};
