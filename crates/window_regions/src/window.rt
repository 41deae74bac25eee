//! A live window: its name, its number, how it was made, and the part of each rank in it.
ghost use Rattle.std.specs.Prelude.{◌≡◌, ℕ, ◌==◌, ◌+◌, ◌^◌, ◌<◌, not, true, filter};
ghost use Rattle.std.specs.List.{find};
ghost use Rattle.std.specs.Option.{option_copied};
ghost use Rattle.rma_types.specs.declared.calls.Flavor.TheVariants.{Dynamic as DynamicFlavor};
ghost use Rattle.rank_rules.specs.Windows.{is_same_flavor, no_part as part_without_bytes};
ghost use Rattle.rank_rules.specs.Windows.{part_at as part_of_rank};
ghost use Rattle.window_regions.specs.Shapes.{IsShape};

use rma_types::{Flavor, Items, Part};
use std::marker::Model;

/// How a window was made, and the part of each rank in it (MPI 3.1, section 11.2). In a dynamic window each part has
/// base 0, 0 bytes and unit 1.
#[derive(Debug, Drop)]
pub struct Shape {
    /// Of the three kinds of creation, that of all ranks.
    pub flavor: Flavor,
    /// By rank: base and bytes in bytes of that rank's memory, and the unit of displacements in bytes.
    pub parts: Items<Part>,
}

#[derive(Debug, Drop)]
pub struct Window {
    win: u8,
    number: u32,
    flavor: Flavor,
    parts: Items<Part>,
}

impl Model for Window {
    ghost use Rattle.rank_rules.specs.Windows.{Window as LiveWindow};
    ghost use Rattle.window_regions.specs.Shapes.{IsShape};

    ghost Value = { LiveWindow };

    ghost view = { λ w. record { win = w.win; number = w.number; flavor = w.flavor; parts = w.parts } };

    ghost invariant = { λ w. IsShape w.flavor w.parts };
}

impl Window {
    pub fn new(win: u8, number: u32, shape: Shape) -> Window
        requires { IsShape shape.flavor shape.parts }
        ensures { result ≡ record {
          win = win;
          number = number;
          flavor = shape.flavor;
          parts = shape.parts;
        } }
    {
        let Shape { flavor, parts } = shape;
        Window {
            win,
            number,
            flavor,
            parts,
        }
    }

    pub fn win(&self) -> u8
        ensures { result ≡ self.now.win }
    {
        self.win
    }

    pub fn number(&self) -> u32
        ensures { result ≡ self.now.number }
    {
        self.number
    }

    /// In a dynamic window the part of each rank is one without bytes.
    pub fn is_dynamic(&self) -> bool
        ensures value { result ≡ is_same_flavor self.now.flavor DynamicFlavor }
        ensures parts { result ≡ true → (rank : ℕ) →
            part_of_rank self.now.parts rank ≡ part_without_bytes }
    {
        match self.flavor {
            Flavor::Allocate => false,
            Flavor::Create => false,
            Flavor::Dynamic => true,
        }
    }

    /// The part of a rank, which ends below 2 to 32.
    pub fn part(&self, rank: u32) -> Part
        ensures value { result ≡ part_of_rank self.now.parts rank }
        ensures end { result.base + result.bytes < 2 ^ 32 }
    {
        part_at(self.parts.as_slice(), rank)
    }
}

/// The part of each rank in a dynamic window, in which an address is a displacement (MPI 3.1, section 11.2.4).
pub fn no_part() -> Part
    ensures { result ≡ part_without_bytes }
{
    Part {
        base: 0,
        bytes: 0,
        unit: 1,
    }
}

/// The part of a rank; none is one without bytes.
pub fn part_at(parts: &[Part], rank: u32) -> Part
    ensures { result ≡ part_of_rank parts.now rank }
{
    match parts.get(rank as usize) {
        Some(part) => *part,
        None => no_part(),
    }
}

/// The window of this name.
pub fn find_window(windows: &[Window], win: u8) -> Option<&Window>
    ensures { option_copied result ≡ find (λ window. window.win == win) windows.now }
{
    match windows.split_first() {
        None => None,
        Some((first, others)) => {
            if first.win() == win {
                Some(first)
            } else {
                find_window(others, win)
            }
        }
    }
}

/// The window of this name goes.
pub fn leave(windows: &mut Vec<Window>, win: u8)
    ensures { windows.new.items ≡ filter (λ window. not (window.win == win)) windows.old.items }
{
    windows.retain(
        |window: &Window| -> bool
            ensures { result ≡ not (window.now.win == win) }
        { window.win() != win },
    );
}
