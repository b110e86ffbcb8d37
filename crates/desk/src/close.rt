// The end of a desk.
ghost use Rattle.std.specs.Prelude.{◌≡◌, map, All};
ghost use Rattle.desk.specs.Closing.{gathered, AreAll, Ended, IsWhole};
ghost use Rattle.desk.specs.Names.{KnowsAll};
ghost use Rattle.desk.specs.Rule.{IsIdle, tag};
ghost use Rattle.desk.specs.Seats.{view_of, opening_of, IsOf, IsPlaceOf};

use crate::book::Home;
use crate::desk::Desk;
use crate::engine::Engine;
use crate::seat::{Place, Seat};

impl<E: Engine> Desk<E> {
    /// Gives the engine out. By their names, splits and what was joined into them, these have to be all seats.
    pub fn close(self, mut seats: Vec<Seat<E>>) -> E
        requires seats { All (λ s. IsOf self s) seats.items }
        requires all { AreAll (map view_of seats.items) }
        ensures { IsWhole E.seat_of E.stands E.legal (opening_of self) result (map view_of seats.items) }
    {
        let Some(seat) = seats.pop() else {
            unreachable!()
        };
        let place = self.gather(seat, seats).into_place();
        self.end(place)
    }

    // Joins all seats into one.
    fn gather(&self, mut seat: Seat<E>, mut seats: Vec<Seat<E>>) -> Seat<E>
        requires seat { IsOf self.now seat }
        requires seats { All (λ s. IsOf self.now s) seats.items }
        ensures place { IsOf self.now result }
        ensures view { view_of result ≡ gathered (view_of seat) (map view_of seats.items) }
    {
        while let Some(other) = seats.pop() {
            self.join(&mut seat, other);
        }
        seat
    }

    // Takes the engine out of its slot, where no other seat is left that could hold it.
    fn end(self, place: Place<E, E::Entry>) -> E
        requires place { IsPlaceOf self place × IsIdle place.me }
        requires all { KnowsAll (tag place.me.0) }
        ensures { Ended E.seat_of E.stands E.legal (opening_of self) result place.me.0 }
    {
        let Desk { table } = self;
        let mut closed = table.close_with(place);
        let taken = closed.take(0);
        closed.free();
        let Some(Home { engine, book: _ }) = taken else {
            unreachable!()
        };
        engine
    }
}
