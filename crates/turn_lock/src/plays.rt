// What each step tells. These types are for the proofs alone.
use crate::views::View;
use atomic_table::{Join, Play, Split};
use listed_values::Listed;
use std::marker::PhantomData;

pub(crate) struct Draw;

impl<V: Listed> Play<Option<V>, View<V::Entry, V::Origin>> for Draw {
    ghost use Rattle.turn_lock.specs.Steps.{Draws};

    ghost then = { Draws };
}

pub(crate) struct Look;

impl<V: Listed> Play<Option<V>, View<V::Entry, V::Origin>> for Look {
    ghost use Rattle.turn_lock.specs.Steps.{Looks};

    ghost then = { Looks V.list V.owner V.origin };
}

pub(crate) struct HandOn;

impl<V: Listed> Play<Option<V>, View<V::Entry, V::Origin>> for HandOn {
    ghost use Rattle.turn_lock.specs.Steps.{HandsOn};

    ghost then = { HandsOn V.list };
}

pub(crate) struct Learn;

impl<V: Listed> Play<Option<V>, View<V::Entry, V::Origin>> for Learn {
    ghost use Rattle.turn_lock.specs.Steps.{Learns};

    ghost then = { Learns V.owner };
}

/// A seat of its own for the first number.
pub(crate) struct Deal;

impl<E, O> Split<View<E, O>> for Deal {
    ghost use Rattle.turn_lock.specs.Views.{without_first, first_alone};

    ghost left = { without_first };

    ghost right = { first_alone };
}

/// A seat of no number, which knows the same list.
pub(crate) struct Tell;

impl<E, O> Split<View<E, O>> for Tell {
    ghost use Rattle.turn_lock.specs.Views.{telling};

    ghost left = { λ v. v };

    ghost right = { telling };
}

pub(crate) struct Gather;

impl<E, O> Join<View<E, O>> for Gather {
    ghost use Rattle.turn_lock.specs.Views.{both, spent};

    ghost both = { both };

    ghost spent = { spent };
}
