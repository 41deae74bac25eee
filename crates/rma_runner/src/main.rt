//! Runs scripts of MPI one-sided calls and reports on the run.
//!
//! The script comes from standard input and the report goes to standard output. The exit status says how it ended.
#![tactic(auto)]

use rma_program::{end_without_words, rma_main, words_of};
use rma_streams::{StdSink, StdSource};
use rma_types::OpenGate;
use std::env;
use std::process::ExitCode;

fn main(rt: HostRuntime) -> ExitCode {
    let mut source = StdSource::new(rt.stdin());
    let mut sink = StdSink::new(rt.stdout());
    let alloc = rt.alloc();
    let outcome = match words_of(alloc, env::args(&rt)) {
        Ok(words) => rma_main(alloc, words.as_slice(), &mut source, &mut sink, &OpenGate),
        Err(why) => end_without_words(why, &mut sink),
    };
    ExitCode::from(outcome.status)
}
