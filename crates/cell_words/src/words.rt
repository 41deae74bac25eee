//! A cell as one word: the bits in the high half, the number of updates in the low half.
ghost use Rattle.std.specs.Prelude.{◌≡◌};
ghost use Rattle.cell_words.specs.Words.{word_of, seen_in};

use cell_face::Seen;

/// The number of a word's halves.
const HALF: u64 = 0x1_0000_0000;

/// The word of a cell with these bits, after so many updates.
pub fn word(bits: u32, place: u32) -> u64
    ensures { result ≡ word_of bits place }
{
    u64::from(bits) * HALF + u64::from(place)
}

/// The state of the cell that has this word.
pub fn seen(word: u64) -> Seen
    ensures { result ≡ seen_in word }
{
    Seen {
        bits: (word / HALF) as u32,
        place: (word % HALF) as u32,
    }
}
