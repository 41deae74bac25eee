//! Sets of numbers, modulo 32.
ghost use Rattle.std.specs.Prelude.{◌≡◌, ◌==◌, ◌||◌, ◌%◌, ◌<◌, ℕ, false};
ghost use Rattle.delivery_queue.specs.Marked.{has};

/// A set of numbers, each taken modulo 32, with a bit for each.
#[derive(Clone, Copy, Debug, PartialEq, Eq)]
pub(crate) struct NumberSet {
    bits: u32,
}

impl NumberSet {
    /// No number.
    pub(crate) fn none() -> NumberSet
        ensures { (number : ℕ) → has result number ≡ false }
    {
        NumberSet { bits: 0 }
    }

    /// Whether the number is in the set.
    pub(crate) fn contains(self, number: u32) -> bool
        ensures { result ≡ has self (number % 32) }
    {
        self.bits >> (number % 32) & 1 == 1
    }

    /// The set with one number more.
    pub(crate) fn with(self, number: u32) -> NumberSet
        ensures { (other : ℕ) → has result other ≡ (number % 32 == other || has self other) }
    {
        self.with_bit((number % 32) as u8)
    }

    fn with_bit(self, bit: u8) -> NumberSet
        requires { bit < 32 }
        ensures { (other : ℕ) → has result other ≡ (bit == other || has self other) }
    {
        NumberSet {
            bits: self.bits | 1 << bit,
        }
    }

    /// The numbers that are in one of the sets.
    pub(crate) fn both(self, other: NumberSet) -> NumberSet
        ensures { (number : ℕ) → has result number ≡ (has self number || has other number) }
    {
        NumberSet {
            bits: self.bits | other.bits,
        }
    }
}
