//! The edge of the program: where its bytes come from, and where they go.
//!
//! A [`Source`] has three meanings that contracts see: `left`, the bytes that are left, which is `Some` where it
//! tells them and `None` where it does not; `faults`, how often it failed; and `end`, whether its end was told,
//! and how many reads came after that. A [`Sink`] has `written`, the bytes written so far, and `faults`. These
//! words relate such a meaning before a call and after it (`specs/Moves.antt`, `specs/Faults.antt`,
//! `specs/Ends.antt`):
//!
//! - `Took old bytes new`: what was left is `bytes`, and then what is left now.
//! - `TookSome old new`: some bytes were taken. `AtEnd left`: no byte is left.
//! - `Wrote old bytes new`: what is written now is what was written, and then `bytes`.
//! - `WrotePrefix old bytes new`: only the first of `bytes` were written, and not all of them.
//! - `Rose old new`: the count rose, or stands at its last value, 2^64 - 1.
//! - `NoLateRead old new`: no read came after the end was told, unless it was told before.
//!
//! A move keeps a stream that tells its bytes telling, and one that does not, not telling. A failure has a
//! cause in three parts: the count of faults never falls, an `Err` comes only where it rose, and an `Ok` leaves
//! it as it was. So nobody fails who met no fault, and a stream whose count is always 0 never fails.
//!
//! [`read_input`] and [`write_output`] keep all this for a whole input and a whole output, over any stream:
//!
//! - `read_input` answers `Ok(bytes)` with `Took left bytes`, at most [`READ_LIMIT`] bytes, and then either
//!   `AtEnd` or exactly that many; the count is as it was. [`ReadError::Failed`] comes only where the count
//!   rose, and [`ReadError::NoMemory`] leaves the count as it was. After either, `TookSome`. Always `NoLateRead`.
//! - `write_output` answers `Ok` with `Wrote written bytes`, and the count is as it was. `Failed` comes only
//!   where the count rose, with `WrotePrefix written bytes`.
//!
//! [`MemorySource`] and [`MemorySink`] fail as planned, [`SafeSource`] and [`SafeSink`] never, and
//! [`StdSource`] and [`StdSink`] stand over the system's own streams, of whose bytes nothing is told.
#![tactic(auto)]

mod cursors;
mod ends;
mod memory_sinks;
mod memory_sources;
mod plans;
mod safe_streams;
mod std_streams;
mod streams;
mod system_calls;
mod wholes;

pub use memory_sinks::MemorySink;
pub use memory_sources::MemorySource;
pub use safe_streams::{SafeSink, SafeSource};
pub use std_streams::{StdSink, StdSource};
pub use streams::{Failed, Sink, Source};
pub use wholes::{READ_LIMIT, ReadError, read_input, write_output};
