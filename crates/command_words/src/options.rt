//! What the program is told by its words.
use rma_types::{Delay, Order};
use run_texts::Mode;

/// How a script is run.
#[derive(Clone, Copy, Debug, PartialEq, Eq)]
pub struct Options {
    pub mode: Mode,
    /// The order of the ranks' turns in the mode `Step`.
    pub order: Order,
    /// The number of workers of the mode `Run`, from 1 to 16.
    pub workers: u8,
    /// When the touches of accesses are made.
    pub delay: Delay,
    /// The seed of all draws.
    pub seed: u32,
}

/// The options where no words are given.
pub const DEFAULT_OPTIONS: Options = Options {
    mode: Mode::Step,
    order: Order::Robin,
    workers: 4,
    delay: Delay::None,
    seed: 0,
};

/// Why words stand for no options.
#[derive(Clone, Copy, Debug, PartialEq, Eq)]
pub enum WordsFault {
    /// The words are refused.
    Usage,
    /// Memory ran out. It says nothing of the words.
    NoMemory,
}
