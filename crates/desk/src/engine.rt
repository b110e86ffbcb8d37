// What a desk shares.
ghost use Rattle.std.specs.Prelude.{◌≡◌, List, ◌++◌, ℕ, Option, Some};
ghost use Rattle.desk.specs.History.{HasNone};
ghost use Rattle.desk.specs.Turn.{Stepped};

use dl_outside::Steps;
use std::sync::ledger::Ledger;

/// What answers commands one at a time, and stands for the list of what it was told and asked, the newest first.
pub trait Engine {
    type Command;

    type Reply;

    /// An entry of a list: a call with its marks, or a record that was told. No code makes one.
    type Entry;

    /// The name of the seat that called; a record that was told has none.
    ghost seat_of: { Self.Entry → Option (List ℕ) };

    /// The entry is this call of the seat with that name.
    ghost is_call: { Self.Entry → List ℕ → Self.Command → Self.Reply → Type 0 };

    /// It stands for this list.
    ghost stands: { Self → List Self.Entry → Type 0 };

    /// The list could have come about.
    ghost legal: { List Self.Entry → Type 0 };

    /// After this list the seat with that name may give the command.
    ghost may: { List Self.Entry → List ℕ → Self.Command → Type 0 };

    /// After this list the command ticks nothing.
    ghost quiet: { List Self.Entry → Self.Command → Type 0 };

    /// Answers a command. Its entry is the same one for each list that the engine stands for.
    fn step<L: Ledger>(&mut self, command: Self::Command, steps: &mut Steps<L>) -> Self::Reply
        ensures call { (seat : List ℕ) → Stepped is_call (stands self.old) (stands self.new) legal may quiet seat command result steps.old steps.new };

    /// A call has the name of its seat.
    ghost named: { (entry : Self.Entry) (seat : List ℕ) (command : Self.Command) (reply : Self.Reply) → is_call entry seat command reply → seat_of entry ≡ Some seat };

    /// What a seat may give, it may give after each longer legal list with no further entry of that seat.
    ghost stays: { (log more : List Self.Entry) (seat : List ℕ) (command : Self.Command)
        → may log seat command → legal (more ++ log) → HasNone seat_of seat more → may (more ++ log) seat command };
}
