// A seat as callers hold it.
ghost use Rattle.std.specs.Prelude.{◌≡◌};
ghost use Rattle.desk.specs.Rule.{IsIdle};

use crate::book::Home;
use crate::engine::Engine;
use crate::view::View;

/// A seat at the table of a desk, which may hold the engine. It has no bytes.
pub type Place<E, N> = atomic_table::Seat<Option<Home<E, N>>, View<E, N>>;

/// A seat at a desk, between two turns: it holds nothing, and it was not joined into another.
pub struct Seat<E: Engine> {
    pub(crate) place: Place<E, E::Entry>,
    pub ghost idle: { IsIdle place.me },
}

impl<E: Engine> Seat<E> {
    pub(crate) fn into_place(self) -> Place<E, E::Entry>
        ensures { result ≡ self.place }
    {
        let Seat { place } = self;
        place
    }
}

impl<E: Engine> Drop for Seat<E> {
    fn drop(self) {
        let Seat { place: _ } = self;
    }
}
