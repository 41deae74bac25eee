//! The numbers of a rank's live windows.
ghost use Rattle.std.specs.Prelude.{◌≡◌, ◌<◌, length, slice_index_or, None, OnOk, OnErr};
ghost use Rattle.rma_rules.specs.WindowNumbers.{IsEmptyTable, NumbersFollow, with_freed, with_made};

use rma_types::NoMemory;

/// The number of the live window of each of the names w0 to w31, and how many windows of each name the rank has made
/// (MPI 3.1, section 11.2). A window's number is 32 times the round of its creation, plus its name.
#[derive(Clone, Copy, Debug)]
pub struct WindowNumbers {
    numbers: [Option<u32>; 32],
    made: [u32; 32],
}

impl WindowNumbers {
    /// No window of any name.
    pub fn new() -> WindowNumbers
        ensures { IsEmptyTable result }
    {
        WindowNumbers {
            numbers: [None; 32],
            made: [0; 32],
        }
    }

    /// The number of the live window of this name.
    pub fn number(&self, win: u8) -> Option<u32>
        requires { win < 32 }
        ensures { result ≡ slice_index_or self.now.numbers win None }
    {
        self.numbers[win as usize]
    }

    /// A window of this name is made. Where its number is past the end of the type, nothing changes.
    pub fn make(&mut self, win: u8) -> Result<(), NoMemory>
        requires { win < 32 }
        ensures ok { OnOk result (self.new ≡ with_made self.old win) }
        ensures err { OnErr result (self.new ≡ self.old) }
    {
        let at = win as usize;
        let round = self.made[at];
        let first = round.checked_mul(32).ok_or(NoMemory)?;
        let number = first.checked_add(u32::from(win)).ok_or(NoMemory)?;
        let made = round.checked_add(1).ok_or(NoMemory)?;
        self.numbers[at] = Some(number);
        self.made[at] = made;
        Ok(())
    }

    /// The window of this name is freed.
    pub fn free(&mut self, win: u8)
        requires { win < 32 }
        ensures { self.new ≡ with_freed self.old win }
    {
        self.numbers[win as usize] = None;
    }
}

/// The table follows what a rank knows of its windows: where a rank does not refuse a creation or a free, it is the
/// table of what it knows then (MPI 3.1, section 11.2).
///
/// It is a theorem, and does nothing when it is called.
pub fn numbers_follow()
    ensures follow { NumbersFollow }
{}
