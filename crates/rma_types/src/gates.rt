//! What a run on several workers passes before each call.

/// Stands between the calls of a rank; all threads of a run share it. Both calls return, and decide nothing of the run.
pub trait Gate: Sync {
    /// Called before each call of a rank, with its number.
    fn pass(&self, rank: u8, call: u32);

    /// Called each time a rank leaves a round because it cannot go on in it.
    fn rest(&self, rank: u8);
}

/// A gate that does nothing.
#[derive(Clone, Copy, Debug)]
pub struct OpenGate;

impl Gate for OpenGate {
    fn pass(&self, _rank: u8, _call: u32) {}

    fn rest(&self, _rank: u8) {}
}
