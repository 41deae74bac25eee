//! A small value that a turn goes round.
ghost use Rattle.std.specs.Prelude.{◌≡◌, [], ◌∷◌, ◌++◌, MatchResult};

use rma_types::NoMemory;
use std::alloc::Global;
use turn_lock::Listed;

/// What a seat adds in one turn.
#[derive(Clone, Copy)]
pub struct Mark {
    pub seat: u32,
    pub turn: u32,
}

/// Marks in the order in which they were made, with a number that tells from where they are.
#[derive(Drop)]
pub struct Marks {
    pub marks: Vec<Mark>,
    pub place: u64,
}

impl Listed for Marks {
    type Entry = Mark;

    type Origin = u64;

    ghost list = { λ marks. marks.marks.items };

    ghost owner = { λ mark. mark.seat };

    ghost origin = { λ marks. marks.place };
}

impl Marks {
    pub fn new(alloc: Global, place: u64) -> Marks
        ensures { (result.marks.items ≡ []) × (result.place ≡ place) }
    {
        Marks {
            marks: Vec::new(alloc),
            place,
        }
    }

    pub fn add(&mut self, mark: Mark) -> Result<(), NoMemory>
        ensures place { self.new.place ≡ self.old.place }
        ensures marks { MatchResult result (λ _. self.new.marks.items ≡ self.old.marks.items ++
            mark ∷ [])
            (λ _. self.new.marks.items ≡ self.old.marks.items) }
    {
        self.marks.push(mark).map_err(|_| NoMemory)
    }
}
