// One seat in place of two.
ghost use Rattle.std.specs.Prelude.{◌≡◌};
ghost use Rattle.desk.specs.History.{GoesOn};
ghost use Rattle.desk.specs.Rule.{both};
ghost use Rattle.desk.specs.Seats.{view_of, IsOf};

use crate::desk::Desk;
use crate::engine::Engine;
use crate::rule::{Looks, Whole};
use crate::seat::Seat;

impl<E: Engine> Desk<E> {
    /// Takes in another seat. This one has then seen what either had.
    ///
    /// The load behind the join is for the proof alone: at a step of its own the seat learns that its list goes on from
    /// what the other had seen.
    pub fn join(&self, seat: &mut Seat<E>, other: Seat<E>)
        requires place { IsOf self.now seat.old }
        requires other { IsOf self.now other }
        ensures place { IsOf self.now seat.new }
        ensures view { view_of seat.new ≡ both (view_of seat.old) (view_of other) }
        ensures seen { GoesOn (view_of seat.new).seen (view_of seat.old).seen × GoesOn (view_of seat.new).seen (view_of other).seen }
    {
        let shared = &self.table.shared;
        shared.join_seat::<Whole>(&mut seat.place, other.into_place());
        shared.load::<Looks>(&mut seat.place, 0);
    }
}
