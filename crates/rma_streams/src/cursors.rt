//! Bytes in memory that are read from the front.
ghost use Rattle.std.specs.Prelude.{◌≡◌, ◌++◌, length, min, take};

use std::marker::Model;

/// Bytes, and a place in them. Contracts see the bytes from that place on.
#[derive(Debug, Drop)]
pub(crate) struct ByteCursor {
    bytes: Vec<u8>,
    at: usize,
}

impl Model for ByteCursor {
    ghost use Rattle.std.specs.Prelude.{ℕ, List, ◌≤◌, drop, vec_len};

    ghost Value = { List ℕ };

    ghost view = { λ cursor. drop cursor.at cursor.bytes.items };

    ghost invariant = { λ cursor. cursor.at ≤ vec_len cursor.bytes };
}

impl ByteCursor {
    pub(crate) fn new(bytes: Vec<u8>) -> Self
        ensures { result ≡ bytes.items }
    {
        ByteCursor { bytes, at: 0 }
    }

    /// Moves the next bytes, at most `most` of them, into the front of `buf`.
    pub(crate) fn take_into(&mut self, most: usize, buf: &mut [u8]) -> usize
        ensures count { result ≡ min (min most (length buf.new)) (length self.old) }
        ensures moved { self.old ≡ take result buf.new ++ self.new }
    {
        let left = self.bytes.len() - self.at;
        let count = most.min(buf.len()).min(left);
        let end = self.at + count;
        buf[..count].copy_from_slice(&self.bytes[self.at..end]);
        self.at = end;
        count
    }
}
