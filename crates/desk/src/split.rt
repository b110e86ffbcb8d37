// One more seat.
ghost use Rattle.std.specs.Prelude.{◌≡◌};
ghost use Rattle.desk.specs.Rule.{parent, child};
ghost use Rattle.desk.specs.Seats.{view_of, IsOf};

use crate::desk::Desk;
use crate::engine::Engine;
use crate::rule::Half;
use crate::seat::Seat;

impl<E: Engine> Desk<E> {
    /// Splits off a seat with a name of its own, which has seen what this one has.
    pub fn split(&self, seat: &mut Seat<E>) -> Seat<E>
        requires { IsOf self.now seat.old }
        ensures places { IsOf self.now seat.new × IsOf self.now result }
        ensures views { (view_of seat.new ≡ parent (view_of seat.old)) × (view_of result ≡ child (view_of seat.old)) }
    {
        let place = self.table.shared.split_seat::<Half>(&mut seat.place);
        Seat { place }
    }
}
