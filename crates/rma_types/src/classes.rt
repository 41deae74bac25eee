//! The error classes of refused calls.
ghost use Rattle.std.specs.Prelude.{◌≡◌};
ghost use Rattle.rma_types.specs.Classes.{class_number, class_text};

/// The error class of a refused call (MPI 3.1, sections 8.4 and 11.6). The classes stand in the order in
/// which a call's refusals are tested, and are numbered from 1.
#[derive(Clone, Copy, Debug, PartialEq, Eq)]
pub enum Class {
    Win,
    Flavor,
    Size,
    Base,
    Count,
    Datatype,
    Op,
    Rank,
    Request,
    Assert,
    Sync,
    Disp,
    Range,
    Attach,
}

impl Class {
    /// The standard's name of the class, as it is printed.
    pub fn text(self) -> &'static str
        ensures { result.now ≡ class_text self }
    {
        match self {
            Class::Win => "MPI_ERR_WIN",
            Class::Flavor => "MPI_ERR_RMA_FLAVOR",
            Class::Size => "MPI_ERR_SIZE",
            Class::Base => "MPI_ERR_BASE",
            Class::Count => "MPI_ERR_COUNT",
            Class::Datatype => "MPI_ERR_TYPE",
            Class::Op => "MPI_ERR_OP",
            Class::Rank => "MPI_ERR_RANK",
            Class::Request => "MPI_ERR_REQUEST",
            Class::Assert => "MPI_ERR_ASSERT",
            Class::Sync => "MPI_ERR_RMA_SYNC",
            Class::Disp => "MPI_ERR_DISP",
            Class::Range => "MPI_ERR_RMA_RANGE",
            Class::Attach => "MPI_ERR_RMA_ATTACH",
        }
    }

    /// The number of the class, from 1 to 14.
    pub fn number(self) -> u8
        ensures { result ≡ class_number self }
    {
        match self {
            Class::Win => 1,
            Class::Flavor => 2,
            Class::Size => 3,
            Class::Base => 4,
            Class::Count => 5,
            Class::Datatype => 6,
            Class::Op => 7,
            Class::Rank => 8,
            Class::Request => 9,
            Class::Assert => 10,
            Class::Sync => 11,
            Class::Disp => 12,
            Class::Range => 13,
            Class::Attach => 14,
        }
    }
}
