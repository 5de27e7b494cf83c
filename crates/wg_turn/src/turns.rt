//! The rule of the lock's table, and what each step tells. These types are for the proofs alone.
ghost use Rattle.std.specs.Prelude.{List, []};

use crate::logged::Logged;
use crate::view::{Opening, View};
use atomic_table::{Join, Play, Split, TableRule};
use std::marker::{Brand, PhantomData};
use wg_entry::Entry;

/// The rule of the lock's table.
pub struct Turns<S> {
    marker: PhantomData<S>,
}

impl<S: Logged> TableRule<Option<S>, View<S, Entry<S::Call, S::Reply>>, Opening<S>> for Turns<S> {
    ghost use Rattle.std.specs.Prelude.{[], replicate};
    ghost use Rattle.wg_turn.specs.Entries.{who_of, Stands, Lawful};
    ghost use Rattle.wg_turn.specs.Turns.{Kept, first_view};

    ghost holds = { λ k. Kept who_of (Stands S.setup S.history)
        (Lawful S.setup S.history S.legal) k.state.value k.callers };

    ghost first = { λ k. first_view k.state.value k.callers 0 (replicate k.callers []) };
}

/// A ticket is drawn.
pub struct Draw;

impl<S, E> Play<Option<S>, View<S, E>> for Draw {
    ghost use Rattle.wg_turn.specs.Turns.{drew};

    ghost then = { drew };
}

/// The ticket that is served is read: where it is the seat's own, the seat takes the state.
pub struct Enter<S> {
    marker: PhantomData<S>,
}

impl<S: Logged> Play<Option<S>, View<S, Entry<S::Call, S::Reply>>> for Enter<S> {
    ghost use Rattle.wg_turn.specs.Entries.{who_of, Stands, Lawful};
    ghost use Rattle.wg_turn.specs.Turns.{entered};

    ghost then = { entered who_of (Stands S.setup S.history) (Lawful S.setup S.history S.legal) };
}

/// The entry that a count adds, alone in a list. Each call picks it.
pub trait NotedEntry<E> {
    ghost noted: { List E };
}

impl<E> NotedEntry<E> for Brand {
    ghost noted = { [] };
}

/// An entry is counted.
pub struct Count<N> {
    marker: PhantomData<N>,
}

impl<S, E, N: NotedEntry<E>> Play<Option<S>, View<S, E>> for Count<N> {
    ghost use Rattle.wg_turn.specs.Turns.{tallied};

    ghost then = { tallied N.noted };
}

/// The turn passes on.
pub struct Leave<S> {
    marker: PhantomData<S>,
}

impl<S: Logged> Play<Option<S>, View<S, Entry<S::Call, S::Reply>>> for Leave<S> {
    ghost use Rattle.wg_turn.specs.Entries.{who_of, Stands, Lawful};
    ghost use Rattle.wg_turn.specs.Turns.{passed_on};

    ghost then = { passed_on who_of (Stands S.setup S.history) (Lawful S.setup S.history S.legal) };
}

/// A word is read, which tells a seat what the rule says of it.
pub struct Learn<S> {
    marker: PhantomData<S>,
}

impl<S: Logged> Play<Option<S>, View<S, Entry<S::Call, S::Reply>>> for Learn<S> {
    ghost use Rattle.wg_turn.specs.Entries.{who_of, Stands, Lawful};
    ghost use Rattle.wg_turn.specs.Turns.{learned};

    ghost then = { learned who_of (Stands S.setup S.history) (Lawful S.setup S.history S.legal) };
}

/// The seat keeps its first number, and a new seat has the others.
pub struct Deal;

impl<S, E> Split<View<S, E>> for Deal {
    ghost use Rattle.wg_turn.specs.Turns.{dealt, undealt};

    ghost left = { dealt };

    ghost right = { undealt };
}

/// A new seat has seen as much, and keeps no number.
pub struct Tell;

impl<S, E> Split<View<S, E>> for Tell {
    ghost use Rattle.wg_turn.specs.Turns.{witness};

    ghost left = { λ v. v };

    ghost right = { witness };
}

impl<S, E> Join<View<S, E>> for Tell {
    ghost use Rattle.wg_turn.specs.Turns.{both_views, spent_view};

    ghost both = { both_views };

    ghost spent = { spent_view };
}
