// A turn: one step of the engine, by one seat.
ghost use Rattle.std.specs.Prelude.{◌≡◌, [], ◌∷◌, ◌++◌, List, Option, Some, None};
ghost use Rattle.desk.specs.Books.{newest};
ghost use Rattle.desk.specs.Rule.{IsFirst, IsLegalFrom, StandsFrom, IsIdle, HasTaken, added, idle};
ghost use Rattle.desk.specs.Seats.{view_of, IsOf, IsPlaceOf};
ghost use Rattle.desk.specs.Turn.{Stepped, Turned};

use crate::book::{Book, Home, Noted};
use crate::desk::Desk;
use crate::engine::Engine;
use crate::rule::{Calls, GivesBack, Said, Takes};
use crate::seat::{Place, Seat};
use dl_outside::Steps;
use std::marker::Brand;
use std::snapshot::Snapshot;
use std::sync::Wait;
use std::sync::ledger::Ledger;
use std::{hint, thread};

/// So many looks at the lock before a thread lets others run: a turn at a free processor is mostly shorter.
const LOOKS: u32 = 64;

impl<E: Engine> Desk<E> {
    /// Gives the engine one command. The seat has then seen a longer history, which ends with this call.
    pub fn turn<R: Wait, L: Ledger>(
        &self,
        rt: &R,
        seat: &mut Seat<E>,
        command: E::Command,
        steps: &mut Steps<L>,
    ) -> E::Reply
        requires place { IsOf self.now seat.old }
        requires may { (first : List E.Entry) → IsFirst E.stands E.legal (view_of seat.old).start first → E.may ((view_of seat.old).seen ++ first) (view_of seat.old).name command }
        ensures place { IsOf self.now seat.new }
        ensures turned { Turned E.seat_of E.is_call E.stands E.legal E.quiet (view_of seat.old) command result steps.old steps.new (view_of seat.new) }
    {
        self.call(rt, &mut seat.place, command, steps)
    }

    // The order of the steps is what the promises rest on. The engine is out before it steps, so no other seat steps it
    // meanwhile. The event comes behind the step, whose reply it has. The book is written behind the event, and both go
    // home together, so that the engine at home stands for the list of its book. The lock is let go last.
    fn call<R: Wait, L: Ledger>(
        &self,
        rt: &R,
        place: &mut Place<E, E::Entry>,
        command: E::Command,
        steps: &mut Steps<L>,
    ) -> E::Reply
        requires place { IsPlaceOf self.now place.old × IsIdle place.old.me }
        requires may { (first : List E.Entry) → IsFirst E.stands E.legal place.old.me.0.start first → E.may (place.old.me.0.seen ++ first) place.old.me.0.name command }
        ensures place { IsPlaceOf self.now place.new × IsIdle place.new.me }
        ensures turned { Turned E.seat_of E.is_call E.stands E.legal E.quiet place.old.me.0 command result steps.old steps.new place.new.me.0 }
    {
        let Home {
            mut engine,
            mut book,
        } = self.take(rt, place);
        let said = Snapshot::of(&command);
        let reply = engine.step(command, steps);
        self.record::<Brand>(place, &said, &reply, &engine);
        write::<E, E::Entry, Brand>(&mut book, place);
        self.give_back(place, Home { engine, book });
        reply
    }

    // Takes the engine, and waits until it is at home.
    fn take<R: Wait>(&self, rt: &R, place: &mut Place<E, E::Entry>) -> Home<E, E::Entry>
        requires { IsPlaceOf self.now place.old × IsIdle place.old.me }
        ensures { IsPlaceOf self.now place.new × HasTaken E.seat_of E.stands E.legal place.old.me.0 result place.new.me }
    {
        for _ in rt.forever() {
            if self
                .table
                .shared
                .compare_exchange::<Takes<E>>(place, 1, 0, 1)
                == 0
            {
                match self.table.shared.exchange(place, 0, None) {
                    Some(home) => return home,
                    None => unreachable!(),
                }
            }
            self.wait();
        }
        unreachable!()
    }

    // Looks at the lock for a while, and then lets other threads run. That the engine comes home, and that each thread
    // gets it in the end, is only tested.
    fn wait(&self) {
        for _ in 0..LOOKS {
            if self.table.shared.peek(1) == 0 {
                return;
            }
            hint::spin_loop();
        }
        thread::yield_now();
    }

    // The event. What holds of its entry is picked from the arguments.
    fn record<W: Said<E::Entry>>(
        &self,
        place: &mut Place<E, E::Entry>,
        said: &Snapshot<E::Command>,
        reply: &E::Reply,
        engine: &E,
    )
        requires place { IsPlaceOf self.now place.old }
        requires event { (log : List E.Entry) × (e : E.Entry) × (place.old.me.0.held ≡ Some log) × (E.seat_of e ≡ Some place.old.me.0.name) × IsLegalFrom E.stands E.legal place.old.me.0.start (e ∷ log) × W.fits e }
        ensures place { IsPlaceOf self.now place.new }
        ensures event { (log : List E.Entry) → place.old.me.0.held ≡ Some log → (e : E.Entry) × W.fits e × (place.new.me ≡ (added place.old.me.0 log e, place.old.me.1)) }
    {
        let _ = said;
        let _ = reply;
        let _ = engine;
        self.table.shared.fetch_add::<Calls<W>>(place, 0, 1);
    }

    // Gives the engine back with its book.
    fn give_back(&self, place: &mut Place<E, E::Entry>, home: Home<E, E::Entry>)
        requires place { IsPlaceOf self.now place.old × (place.old.me.1 ≡ (0, None) ∷ []) }
        requires engine { (log : List E.Entry) × (place.old.me.0.held ≡ Some log) × StandsFrom E.stands E.legal place.old.me.0.start home.engine log × (home.book.pen.me.0.since ≡ log) }
        ensures { IsPlaceOf self.now place.new × (place.new.me ≡ (idle place.old.me.0, [])) }
    {
        let vacant = self.table.shared.exchange(place, 0, Some(home));
        let None = vacant else { unreachable!() };
        self.table.shared.store::<GivesBack>(place, 1, 0);
    }
}

// Writes the newest entry of what the seat holds into the book.
fn write<E, N, W: Noted<N>>(book: &mut Book<N>, place: &Place<E, N>)
    requires picked { W.entry ≡ newest place.now.me.0.held }
    requires held { (e : N) × (log : List N) × (place.now.me.0.held ≡ Some (e ∷ log)) }
    ensures { (e : N) (log : List N) → place.entry.now.me.0.held ≡ Some (e ∷ log) → book.new.pen.me.0.since ≡ e ∷ book.old.pen.me.0.since }
{
    let _ = place;
    book.add::<W>();
}
