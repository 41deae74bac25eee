//! The exposure epoch of a rank on a window (MPI 3.1, section 11.5.2).
ghost use Rattle.std.specs.Prelude.{◌≡◌};
ghost use Rattle.rank_epochs.specs.Views.{exposure_of};
ghost use Rattle.rank_rules.specs.Epochs as rules;

use crate::ranks::Ranks;

/// The exposure epoch: none, or that of a post, with its group.
#[derive(Debug, Drop)]
pub enum ExposureEpoch {
    Unexposed,
    PostTo(Ranks),
}

impl ExposureEpoch {
    pub fn is_posted(&self) -> bool
        ensures { result ≡ rules.is_exposed (exposure_of self.now) }
    {
        match self {
            ExposureEpoch::Unexposed => false,
            ExposureEpoch::PostTo(_) => true,
        }
    }
}
