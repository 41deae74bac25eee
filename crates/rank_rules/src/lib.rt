//! What a rank knows of its windows, epochs and requests, and which calls it refuses: definitions, with the plain
//! struct of a pending access.
//!
//! They stand in `specs/`, one file a subject: the windows and the ranges of memory (MPI 3.1, section 11.2), the epochs
//! (section 11.5), the requests (section 11.3.5), the error class of a call (sections 8.4 and 11.6), the items of an
//! accepted call, and the accesses that are pending. `first_class` is the one piece of code that all judges of a rank
//! use.
#![tactic(auto)]

mod classes;
mod pending;

pub use classes::first_class;
pub use pending::PendingAccess;
