// The rule of the desk's table, and what each kind of step tells. No value of these types is made.
ghost use Rattle.std.specs.Prelude.{Option};

use crate::book::Home;
use crate::engine::Engine;
use crate::view::View;
use atomic_table::{Join, Play, Split, TableRule};
use std::marker::{Brand, PhantomData};
use std::snapshot::Snapshot;

/// What holds between any two steps. The table is told the engine at its opening, as a snapshot.
pub struct InOrder<E> {
    of: PhantomData<E>,
}

impl<E: Engine> TableRule<Option<Home<E, E::Entry>>, View<E, E::Entry>, Snapshot<E>>
    for InOrder<E> {
    ghost use Rattle.desk.specs.Rule.{Kept, newcomer};

    ghost holds = { λ key. Kept E.seat_of E.stands E.legal key.value };

    ghost first = { λ key. newcomer key.value };
}

/// Word 1 from 0 to 1: the engine is taken.
pub struct Takes<E> {
    of: PhantomData<E>,
}

impl<E: Engine> Play<Option<Home<E, E::Entry>>, View<E, E::Entry>> for Takes<E> {
    ghost use Rattle.desk.specs.Rule.{Took};

    ghost then = { Took E.seat_of E.stands E.legal };
}

/// What holds of the entry of an event, for the proof alone. A call at `Brand` picks it.
pub trait Said<N> {
    ghost fits: { N → Type 0 };
}

impl<N> Said<N> for Brand {
    ghost fits = { λ _. Unit {0} };
}

/// One more in word 0: the event.
pub struct Calls<W> {
    of: PhantomData<W>,
}

impl<E, N, W: Said<N>> Play<Option<Home<E, N>>, View<E, N>> for Calls<W> {
    ghost use Rattle.desk.specs.Rule.{Adds};

    ghost then = { Adds W.fits };
}

/// Word 1 to 0: the engine is given back.
pub struct GivesBack;

impl<E, N> Play<Option<Home<E, N>>, View<E, N>> for GivesBack {
    ghost use Rattle.desk.specs.Rule.{GaveBack};

    ghost then = { GaveBack };
}

/// A load of word 0, which changes nothing.
pub struct Looks;

impl<E, N> Play<Option<Home<E, N>>, View<E, N>> for Looks {
    ghost use Rattle.desk.specs.Rule.{Looked};

    ghost then = { Looked };
}

/// One seat becomes two.
pub struct Half;

impl<E, N> Split<View<E, N>> for Half {
    ghost use Rattle.desk.specs.Rule.{parent, child};

    ghost left = { parent };

    ghost right = { child };
}

/// Two seats become one.
pub struct Whole;

impl<E, N> Join<View<E, N>> for Whole {
    ghost use Rattle.desk.specs.Rule.{both, spent};

    ghost both = { both };

    ghost spent = { spent };
}
