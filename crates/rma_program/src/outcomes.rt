//! What the top calls hand back.
ghost use Rattle.std.specs.Prelude.{◌≡◌};

use rma_record::Run;

/// The status of a program that ends without a report.
pub const WORDS_REFUSED: u8 = 2;
/// The script is refused.
pub const SCRIPT_REFUSED: u8 = 3;
/// A read failed.
pub const READ_FAILED: u8 = 4;
/// A write failed.
pub const WRITE_FAILED: u8 = 5;
/// Memory ran out.
pub const OUT_OF_MEMORY: u8 = 6;

/// The exit status of the program, from 0 to 7, and the run whose report it wrote or began to write.
#[derive(Debug, Drop)]
pub struct Outcome {
    pub status: u8,
    pub run: Option<Run>,
}

impl Outcome {
    /// An outcome without a run.
    pub fn without_run(status: u8) -> Outcome
        ensures { result ≡ record { status = status; run = None } }
    {
        Outcome { status, run: None }
    }
}
