// An engine that adds.
use desk::Engine;
use dl_outside::Steps;
use std::collections::LinkedList;
use std::sync::ledger::Ledger;

/// A call, and the total before it as its mark. No code makes one.
pub struct Call {
    pub seat: LinkedList<u64>,
    pub command: u64,
    pub reply: u64,
    pub before: u64,
}

/// An entry of a history. No code makes one.
pub enum Entry {
    Told(u64),
    Made(Call),
}

/// A total. One that is not whole stands for no history.
#[derive(Drop)]
pub struct Total {
    pub sum: u64,
    pub whole: bool,
}

impl Engine for Total {
    ghost use Rattle.desk_tests.specs.Standing.{Stands};
    ghost use Rattle.desk_tests.specs.Totals.{seat_of, IsCall, IsLegal, call_named};

    type Command = u64;

    type Reply = u64;

    type Entry = Entry;

    ghost seat_of = { seat_of };

    ghost is_call = { IsCall };

    ghost stands = { Stands };

    ghost legal = { IsLegal };

    ghost may = { λ log seat command. Unit {0} };

    ghost quiet = { λ log command. Unit {0} };

    fn step<L: Ledger>(&mut self, command: u64, steps: &mut Steps<L>) -> u64 {
        let _ = steps;
        let after = self.sum.wrapping_add(command);
        self.sum = after;
        after
    }

    ghost named = { call_named };

    ghost stays = { λ log more seat command may legal none. tt };
}
