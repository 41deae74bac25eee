//! The end of an input as it was told, and the reads after that.
ghost use Rattle.std.specs.Prelude.{◌≡◌};
ghost use Rattle.rma_streams.specs.Ends.{unread, after_read};

use crate::streams::Failed;
use std::marker::Model;

/// Whether the end was told, and how many reads came after that. The count stands still at 2^64 - 1.
#[derive(Debug, Drop)]
pub(crate) struct EndMark {
    told: bool,
    late: u64,
}

impl Model for EndMark {
    ghost use Rattle.rma_streams.specs.Ends.{End};

    ghost Value = { End };

    ghost view = { λ mark. record { told = mark.told; late = mark.late } };
}

impl EndMark {
    /// The mark of an input that was not read yet.
    pub(crate) fn new() -> Self
        ensures { result ≡ unread }
    {
        EndMark {
            told: false,
            late: 0,
        }
    }

    /// Notes a read into so much room, with its answer.
    pub(crate) fn note(&mut self, room: usize, answer: Result<usize, Failed>)
        ensures { self.new ≡ after_read self.old room answer }
    {
        if self.told {
            self.late = self.late.saturating_add(1);
        }
        if let Ok(count) = answer {
            if room > 0 && count == 0 {
                self.told = true;
            }
        }
    }
}
