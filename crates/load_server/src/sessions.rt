// Answering request after request.
ghost use Rattle.std.specs.Prelude.{◌≡◌, ◌≤◌, List, IfSome};
ghost use Rattle.dl_outside.specs.Faults.{HasRisen};
ghost use Rattle.front_defs.specs.declared.history.Entry.{Entry};
ghost use Rattle.load_server.specs.Sessions.{IsComplete, SessionDid};

use crate::SessionEnd;
use crate::exchange::exchange;
use dl_outside::{Clock, Sink, Source, Steps};
use front_defs::Turns;
use http_wire::HttpReader;
use std::alloc::Global;
use std::sync::ledger::Ledger;

/// How many requests a session answers at most (this project's own).
pub const MAX_REQUESTS: u32 = 1_000_000;

/// Answers the requests of a source one after another, each by its turns, until the input ends, a request closes, a request
/// cannot be read, or a device fails. The clock is read once for each request, when its body is there.
pub fn session<T: Turns, S: Source, K: Sink, C: Clock, L: Ledger>(
    alloc: Global,
    turns: &mut T,
    source: &mut S,
    sink: &mut K,
    clock: &mut C,
    steps: &mut Steps<L>,
) -> SessionEnd
    ensures did { (seen own : List Entry) → T.stands turns.old seen own → SessionDid (S.left source.old) (S.left source.new) (K.written sink.old) (K.written sink.new) (C.given clock.old) (C.given clock.new) (T.stands turns.new) seen own result }
    ensures later { S.faults source.old ≤ S.faults source.new }
    ensures later_sink { K.faults sink.old ≤ K.faults sink.new }
    ensures read_fault { result ≡ SessionEnd.ReadFault → HasRisen (S.faults source.old) (S.faults source.new) }
    ensures write_fault { result ≡ SessionEnd.WriteFault → HasRisen (K.faults sink.old) (K.faults sink.new) }
    // Completeness: where no device fails, what the input asks for is answered, but for want of memory.
    ensures complete { (HasRisen (S.faults source.old) (S.faults source.new) → ⊥) → (HasRisen (K.faults sink.old) (K.faults sink.new) → ⊥) → IfSome (S.left source.old) (IsComplete result) }
{
    let mut reader = HttpReader::new();
    for _request in 0..MAX_REQUESTS {
        match exchange(alloc, turns, &mut reader, source, sink, clock, steps) {
            Some(end) => return end,
            None => {}
        }
    }
    SessionEnd::Enough
}
