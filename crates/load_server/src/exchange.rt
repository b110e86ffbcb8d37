// One request of a session.
ghost use Rattle.std.specs.Prelude.{◌≡◌, ◌≤◌, ℕ, List, Option, Some, true, IfSome, IsErr, OnErr, OnOk};
ghost use Rattle.std.specs.Io.KnownBytes.{Appends};
ghost use Rattle.dl_outside.specs.Faults.{HasRisen};
ghost use Rattle.dl_outside.specs.Writing.{AppendsFront};
ghost use Rattle.front_defs.specs.declared.history.Entry.{Entry};
ghost use Rattle.http_wire.specs.Bodies.{IsSized};
ghost use Rattle.http_wire.specs.Connections.{closes, expects_continue};
ghost use Rattle.http_wire.specs.Reader.{input};
ghost use Rattle.http_wire.specs.Responses.{continue_text};
ghost use Rattle.load_server.specs.Exchanges.{interim};
ghost use Rattle.load_server.specs.Sessions.{joined};
ghost use Rattle.load_server.specs.Steps.{Answers, ClosesBy, HeadRead, Step, Takes, end_after};

use crate::SessionEnd;
use crate::refusal::refuse;
use crate::respond::respond;
use dl_outside::{Clock, Failed, Sink, Source, Steps};
use front_defs::Turns;
use http_wire::{Head, HttpReader, write_continue, write_response};
use std::alloc::Global;
use std::sync::ledger::Ledger;

/// Reads a request and answers it, and tells the end where the session ends with it.
pub fn exchange<T: Turns, S: Source, K: Sink, C: Clock, L: Ledger>(
    alloc: Global,
    turns: &mut T,
    reader: &mut HttpReader,
    source: &mut S,
    sink: &mut K,
    clock: &mut C,
    steps: &mut Steps<L>,
) -> Option<SessionEnd>
    ensures did { (seen own : List Entry) → T.stands turns.old seen own → Step reader.old.at (input reader.old (S.left source.old)) reader.new.at (input reader.new (S.left source.new)) (S.left source.new) (K.written sink.old) (K.written sink.new) (C.given clock.old) (C.given clock.new) (T.stands turns.new) seen own result }
    ensures takes { IfSome (input reader.old (S.left source.old)) (Takes result reader.old.at reader.new.at (input reader.new (S.left source.new))) }
    ensures later { S.faults source.old ≤ S.faults source.new }
    ensures later_sink { K.faults sink.old ≤ K.faults sink.new }
    ensures read_fault { result ≡ Some SessionEnd.ReadFault → HasRisen (S.faults source.old) (S.faults source.new) }
    ensures write_fault { result ≡ Some SessionEnd.WriteFault → HasRisen (K.faults sink.old) (K.faults sink.new) }
{
    match reader.next_head(alloc, source) {
        Ok(Some(head)) => take_in(alloc, turns, reader, source, sink, clock, &head, steps),
        Ok(None) => Some(SessionEnd::Done),
        Err(error) => Some(refuse(sink, error)),
    }
}

// Takes in the body of a request whose head was read, and answers it.
fn take_in<T: Turns, S: Source, K: Sink, C: Clock, L: Ledger>(
    alloc: Global,
    turns: &mut T,
    reader: &mut HttpReader,
    source: &mut S,
    sink: &mut K,
    clock: &mut C,
    head: &Head,
    steps: &mut Steps<L>,
) -> Option<SessionEnd>
    requires { IsSized head.now.body }
    ensures did { (seen own : List Entry) → T.stands turns.old seen own → (at : ℕ) (text : Option (List ℕ)) → HeadRead at text head.now reader.old.at (input reader.old (S.left source.old)) → Step at text reader.new.at (input reader.new (S.left source.new)) (S.left source.new) (K.written sink.old) (K.written sink.new) (C.given clock.old) (C.given clock.new) (T.stands turns.new) seen own result }
    ensures takes { (at : ℕ) (text : Option (List ℕ)) → HeadRead at text head.now reader.old.at (input reader.old (S.left source.old)) → IfSome text (Takes result at reader.new.at (input reader.new (S.left source.new))) }
    ensures later { S.faults source.old ≤ S.faults source.new }
    ensures later_sink { K.faults sink.old ≤ K.faults sink.new }
    ensures read_fault { result ≡ Some SessionEnd.ReadFault → HasRisen (S.faults source.old) (S.faults source.new) }
    ensures write_fault { result ≡ Some SessionEnd.WriteFault → HasRisen (K.faults sink.old) (K.faults sink.new) }
{
    match write_interim(sink, head) {
        Ok(()) => take_body(alloc, turns, reader, source, sink, clock, head, steps),
        Err(Failed) => Some(SessionEnd::WriteFault),
    }
}

// Takes in the body of a request whose interim response was written where it is due, and answers it.
fn take_body<T: Turns, S: Source, K: Sink, C: Clock, L: Ledger>(
    alloc: Global,
    turns: &mut T,
    reader: &mut HttpReader,
    source: &mut S,
    sink: &mut K,
    clock: &mut C,
    head: &Head,
    steps: &mut Steps<L>,
) -> Option<SessionEnd>
    requires { IsSized head.now.body }
    ensures did { (seen own : List Entry) → T.stands turns.old seen own → (at : ℕ) (text : Option (List ℕ)) → HeadRead at text head.now reader.old.at (input reader.old (S.left source.old)) → (start : Option (List ℕ)) → Appends start (K.written sink.old) (joined (interim head.now)) → Step at text reader.new.at (input reader.new (S.left source.new)) (S.left source.new) start (K.written sink.new) (C.given clock.old) (C.given clock.new) (T.stands turns.new) seen own result }
    ensures takes { (at : ℕ) (text : Option (List ℕ)) → HeadRead at text head.now reader.old.at (input reader.old (S.left source.old)) → IfSome text (Takes result at reader.new.at (input reader.new (S.left source.new))) }
    ensures later { S.faults source.old ≤ S.faults source.new }
    ensures later_sink { K.faults sink.old ≤ K.faults sink.new }
    ensures read_fault { result ≡ Some SessionEnd.ReadFault → HasRisen (S.faults source.old) (S.faults source.new) }
    ensures write_fault { result ≡ Some SessionEnd.WriteFault → HasRisen (K.faults sink.old) (K.faults sink.new) }
{
    match reader.read_body(alloc, source, head) {
        Ok(body) => answer(alloc, turns, sink, clock, head, body, steps),
        Err(error) => Some(refuse(sink, error)),
    }
}

// Writes the interim response where it is due.
fn write_interim<K: Sink>(sink: &mut K, head: &Head) -> Result<(), Failed>
    ensures ok { OnOk result (Appends (K.written sink.old) (K.written sink.new) (joined (interim head.now))) }
    ensures err { OnErr result ((expects_continue head.now ≡ true) × AppendsFront (K.written sink.old) (K.written sink.new) continue_text) }
    ensures later { K.faults sink.old ≤ K.faults sink.new }
    ensures cause { IsErr result → HasRisen (K.faults sink.old) (K.faults sink.new) }
{
    if head.expects_continue() {
        write_continue(sink)
    } else {
        Ok(())
    }
}

// Serves a request whose body was read, and writes its response.
fn answer<T: Turns, K: Sink, C: Clock, L: Ledger>(
    alloc: Global,
    turns: &mut T,
    sink: &mut K,
    clock: &mut C,
    head: &Head,
    body: Vec<u8>,
    steps: &mut Steps<L>,
) -> Option<SessionEnd>
    ensures did { (seen own : List Entry) → T.stands turns.old seen own → Answers (record { head = head.now; body = body.items }) (K.written sink.old) (K.written sink.new) (C.given clock.old) (C.given clock.new) (T.stands turns.new) seen own result }
    ensures ends { ClosesBy (closes head.now) result }
    ensures later { K.faults sink.old ≤ K.faults sink.new }
    ensures write_fault { result ≡ Some SessionEnd.WriteFault → HasRisen (K.faults sink.old) (K.faults sink.new) }
    ensures no_read { result ≡ Some SessionEnd.ReadFault → ⊥ }
{
    let at = clock.now();
    let answer = respond(alloc, turns, head, body, at, steps);
    let close = head.closes();
    match write_response(sink, answer.status(), close, answer.body()) {
        Ok(()) => end_after(close),
        Err(Failed) => Some(SessionEnd::WriteFault),
    }
}

// A request that closes ends the session.
fn end_after(close: bool) -> Option<SessionEnd>
    ensures { result ≡ end_after close }
{
    if close { Some(SessionEnd::Done) } else { None }
}
