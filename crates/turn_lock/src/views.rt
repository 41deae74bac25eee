//! The table of a turn: two words, one slot, and what each seat knows.
//!
//! Word 0 is the next ticket and word 1 the ticket that is served, both modulo 2^64. The slot holds the value, or
//! nothing while a seat has it.
use atomic_table::{Seat, Table, TableRule};
use listed_values::Listed;
use std::alloc::Global;
use std::collections::LinkedList;
use std::snapshot::Snapshot;

/// What a seat knows. No value of it is made.
pub struct View<E, O> {
    /// Its ticket, where it waits for the turn or has it.
    pub ticket: Option<u64>,
    /// Whether it has the turn.
    pub inside: bool,
    /// Its numbers, each with the entries that were given under it.
    pub parts: LinkedList<(u64, LinkedList<E>)>,
    /// The list as it last had it.
    pub known: LinkedList<E>,
    /// Lists that others knew.
    pub heard: LinkedList<LinkedList<E>>,
    /// The origin of the value, where the seat still stands for one.
    pub origin: Option<O>,
}

/// How many seats there are, and the value at the start.
#[derive(Drop)]
pub struct Start<V> {
    pub seats: u64,
    pub value: Snapshot<V>,
}

/// The rule of the table.
pub struct InTurn;

impl<V: Listed> TableRule<Option<V>, View<V::Entry, V::Origin>, Start<V>> for InTurn {
    ghost use Rattle.turn_lock.specs.Rules.{Kept};
    ghost use Rattle.turn_lock.specs.Views.{opening_view};

    ghost holds = { λ start. Kept V.list V.owner V.origin start.seats (V.origin start.value.value) };

    ghost first = { λ start. opening_view start.seats (V.origin start.value.value) };
}

pub type Place<V> = Seat<Option<V>, View<<V as Listed>::Entry, <V as Listed>::Origin>>;

pub type Round<V> = Table<
    Option<V>,
    View<<V as Listed>::Entry, <V as Listed>::Origin>,
    Start<V>,
    InTurn,
    Global,
>;
