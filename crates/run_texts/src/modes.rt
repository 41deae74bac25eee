//! The ways in which the program runs.

/// How a script is run: by one thread with steps in a fixed order, by threads, or the built-in work by threads.
///
/// The work's report is one line; the other two have the same report.
#[derive(Clone, Copy, Debug, PartialEq, Eq)]
pub enum Mode {
    Step,
    Run,
    Work,
}
