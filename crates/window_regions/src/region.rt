//! A range of a rank's own space that belongs to a live window.
ghost use Rattle.std.specs.Prelude.{◌≡◌, ◌+◌, ◌^◌, ◌<◌};

use std::marker::Model;

/// A range of the rank's own space, which belongs to the window of this name: it was created over the range, or the
/// range is attached to it (MPI 3.1, sections 11.2.1 and 11.2.4).
#[derive(Clone, Copy, Debug)]
pub struct Region {
    win: u8,
    base: u32,
    bytes: u32,
    is_attached: bool,
}

impl Model for Region {
    ghost use Rattle.std.specs.Prelude.{◌+◌, ◌^◌, ◌<◌};
    ghost use Rattle.rank_rules.specs.Windows.{OwnRange};

    ghost Value = { OwnRange };

    ghost view = { λ r. record {
      win = r.win;
      range = record { base = r.base; bytes = r.bytes };
      is_attached = r.is_attached;
    } };

    ghost invariant = { λ r. r.base + r.bytes < 2 ^ 32 };

    ghost inverse = { λ o. record {
      win = o.win;
      base = o.range.base;
      bytes = o.range.bytes;
      is_attached = o.is_attached;
    } };
}

impl Region {
    pub fn new(win: u8, base: u32, bytes: u32, is_attached: bool) -> Region
        requires { base + bytes < 2 ^ 32 }
        ensures { result ≡ record {
          win = win;
          range = record { base = base; bytes = bytes };
          is_attached = is_attached;
        } }
    {
        Region {
            win,
            base,
            bytes,
            is_attached,
        }
    }

    pub fn win(&self) -> u8
        ensures { result ≡ self.now.win }
    {
        self.win
    }

    pub fn is_attached(&self) -> bool
        ensures { result ≡ self.now.is_attached }
    {
        self.is_attached
    }

    pub fn base(&self) -> u32
        ensures { result ≡ self.now.range.base }
    {
        self.base
    }

    /// The address after the last byte.
    pub fn end(&self) -> u32
        ensures { result ≡ self.now.range.base + self.now.range.bytes }
    {
        self.base + self.bytes
    }
}
