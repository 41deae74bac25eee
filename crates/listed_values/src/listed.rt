//! Values that are lists with an origin, as far as contracts see them.

/// A value with a list of entries of plain data, each of which has an owner, and with an origin.
pub trait Listed: Drop {
    ghost use Rattle.std.specs.Prelude.{ℕ, List};

    /// What one turn may add.
    type Entry;

    /// What never changes of the value.
    type Origin;

    /// The entries of the value, in order.
    ghost list: { Self → List Self.Entry };

    /// The number of the seat that an entry belongs to.
    ghost owner: { Self.Entry → ℕ };

    /// Where the value comes from.
    ghost origin: { Self → Self.Origin };
}
