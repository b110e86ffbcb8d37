// Reading requests.
ghost use Rattle.std.specs.Prelude.{◌≡◌, ◌≢◌, ◌≤◌, ◌<◌, ◌-◌, [], ℕ, List, Option, All, Err, IfErr, IfOk, IfSome, IsNone, MatchResult, OnErr, Ok, None, Some, drop, length, take};
ghost use Rattle.std.specs.Io.KnownBytes.{Consumes};
ghost use Rattle.dl_outside.specs.Faults.{HasRisen};
ghost use Rattle.dl_outside.specs.Reading.{ConsumesSome};
ghost use Rattle.httparse.specs.Grammar.{RequestHead};
ghost use Rattle.httparse.specs.Spans.{IsRequestAt, IsRequestWithin};
ghost use Rattle.http_wire.specs.Bodies.{BodyFault, IsBodyOf, IsSized, TakesPart};
ghost use Rattle.http_wire.specs.Heads.{HandsOut, HasNoHead, HeadFault, IsFoundAt, KeepsBack, TakesHead};
ghost use Rattle.http_wire.specs.Reader.{Reader, StaysAt, input, place_after};
ghost use Rattle.http_wire.specs.declared.head.BodyLength.TheVariants.{Fixed};

use crate::body::{NoBody, take_body};
use crate::buffer::Buffer;
use crate::find::{NoHead, find_head};
use crate::make::make_head;
use crate::{BodyLength, Head, MAX_BODY, MAX_FIELDS, WireError};
use dl_outside::{Failed, Source};
use httparse::spans::{EMPTY_HEADER_SPAN, HeaderSpan, RequestSpans};
use std::alloc::Global;
use std::marker::Model;

/// Reads the requests of a source one after another: a head, its body, the next head. It is not used again after an error.
///
/// Contracts see its pending bytes, which have left the source and were not handed out yet, and how many bytes of the input
/// came before them.
#[derive(Drop)]
pub struct HttpReader {
    buffer: Buffer,
    at: u64,
}

impl Model for HttpReader {
    ghost use Rattle.http_wire.specs.Reader.{Reader};

    ghost Value = { Reader };

    ghost view = { λ r. record { pending = r.buffer; at = r.at } };
}

impl HttpReader {
    /// A reader at the first byte of its input. It takes no memory but its own.
    pub fn new() -> HttpReader
        ensures { result ≡ record { pending = []; at = 0 } }
    {
        HttpReader {
            buffer: Buffer::new(),
            at: 0,
        }
    }

    /// The next head, whose bytes leave the input, or `None` at the end of the input.
    ///
    /// Its cost is linear in the head's length where the source gives it in few pieces.
    ///
    /// # Errors
    ///
    /// `BadHead`, `BadLength`, `ReadFault` and `NoMemory`. The input is then as it was.
    pub fn next_head<S: Source>(
        &mut self,
        alloc: Global,
        source: &mut S,
    ) -> Result<Option<Head>, WireError>
        ensures head { IfOk result (λ found. IfSome found (λ head. IfSome (input self.old (S.left source.old)) (λ text.
            (rest : List ℕ) × TakesHead self.old.at text head rest × (input self.new (S.left source.new) ≡ Some rest)
            × (self.new.at ≡ place_after self.old.at (length text - length rest))))) }
        ensures sized { IfOk result (λ found. IfSome found (λ head. IsSized head.body)) }
        ensures none { result ≡ Ok None → IfSome (input self.old (S.left source.old)) (λ text. text ≡ []) }
        ensures fault { IfErr result (HeadFault self.old.at (input self.old (S.left source.old)) (S.faults source.old) (S.faults source.new)) }
        // Where a read failed, no head stands in the bytes that were read.
        ensures unread { result ≡ Err WireError.ReadFault → HasNoHead self.new.pending }
        ensures stays { MatchResult result (λ found. IsNone found → StaysAt self.old (S.left source.old) self.new (S.left source.new)) (λ _. StaysAt self.old (S.left source.old) self.new (S.left source.new)) }
        ensures later { S.faults source.old ≤ S.faults source.new }
    {
        match self.buffer.fill(source) {
            Ok(false) => Ok(None),
            Ok(true) => Ok(Some(self.read_head(alloc, source)?)),
            Err(Failed) => Err(WireError::ReadFault),
        }
    }

    /// The body of a head, which is the last that was read, out of the bytes behind it.
    ///
    /// It is read in pieces of up to 64 KiB. What is held is the body, in memory of its exact length, and one piece.
    ///
    /// # Errors
    ///
    /// `BodyTooLong` before a byte of it is read, `CutBody` where the input ends in it, `ReadFault` and `NoMemory`; what
    /// was read of it is then lost. `BadLength` for a body in chunks, which no head has yet.
    pub fn read_body<S: Source>(
        &mut self,
        alloc: Global,
        source: &mut S,
        head: &Head,
    ) -> Result<Vec<u8>, WireError>
        ensures body { IfOk result (λ body. IsBodyOf head.now.body body.items) }
        ensures input { IfOk result (λ body. Consumes (input self.old (S.left source.old)) (input self.new (S.left source.new)) body.items) }
        ensures place { IfOk result (λ body. self.new.at ≡ place_after self.old.at (length body.items)) }
        ensures fault { IfErr result (BodyFault head.now (input self.old (S.left source.old)) (S.faults source.old) (S.faults source.new)) }
        // Where a read failed, fewer bytes than the body has were read behind the head.
        ensures unread { result ≡ Err WireError.ReadFault → TakesPart head.now.body (input self.old (S.left source.old)) (S.left source.new) }
        ensures lost { OnErr result (ConsumesSome (input self.old (S.left source.old)) (input self.new (S.left source.new))) }
        ensures later { S.faults source.old ≤ S.faults source.new }
    {
        let at = head.at;
        let wanted = match head.body {
            BodyLength::Fixed(wanted) => wanted,
            BodyLength::Chunked => return Err(WireError::BadLength { at }),
        };
        if wanted > MAX_BODY {
            return Err(WireError::BodyTooLong { at });
        }
        match take_body(alloc, &mut self.buffer, source, wanted as usize) {
            Ok(body) => {
                self.at = self.at.saturating_add(wanted);
                Ok(body)
            }
            Err(NoBody::Cut(got)) => Err(WireError::CutBody {
                at,
                got: got as u64,
                wanted,
            }),
            Err(NoBody::Fault) => Err(WireError::ReadFault),
            Err(NoBody::NoMemory) => Err(WireError::NoMemory),
        }
    }

    // The head at the front of pending bytes, which are some.
    fn read_head<S: Source>(&mut self, alloc: Global, source: &mut S) -> Result<Head, WireError>
        requires { self.old.pending ≢ [] }
        ensures head { IfOk result (λ head. IfSome (input self.old (S.left source.old)) (λ text.
            (rest : List ℕ) × TakesHead self.old.at text head rest × (input self.new (S.left source.new) ≡ Some rest)
            × (self.new.at ≡ place_after self.old.at (length text - length rest)))) }
        ensures sized { IfOk result (λ head. IsSized head.body) }
        ensures fault { IfErr result (HeadFault self.old.at (input self.old (S.left source.old)) (S.faults source.old) (S.faults source.new)) }
        ensures unread { result ≡ Err WireError.ReadFault → HasNoHead self.new.pending }
        ensures stays { OnErr result (StaysAt self.old (S.left source.old) self.new (S.left source.new)) }
        ensures later { S.faults source.old ≤ S.faults source.new }
    {
        let mut spans = [EMPTY_HEADER_SPAN; MAX_FIELDS];
        match find_head(&mut self.buffer, source, &mut spans) {
            Ok(found) => self.hand_out(alloc, found, &spans),
            Err(NoHead::Bad) => Err(WireError::BadHead { at: self.at }),
            Err(NoHead::Fault) => Err(WireError::ReadFault),
        }
    }

    // The head that was found at these places of the pending bytes, which its bytes leave.
    fn hand_out(
        &mut self,
        alloc: Global,
        found: RequestSpans,
        spans: &[HeaderSpan],
    ) -> Result<Head, WireError>
        requires within { IsRequestWithin (take 16384 self.old.pending) spans.now found }
        requires head { (tree : RequestHead) × IsFoundAt (take 16384 self.old.pending) spans.now found tree }
        ensures head { IfOk result (λ head. HandsOut self.old spans.now found head self.new) }
        ensures fault { IfErr result (λ error. KeepsBack self.old spans.now found error self.new) }
    {
        match make_head(alloc, self.at, self.buffer.front(), found, spans) {
            Ok(head) => {
                self.buffer.consume(found.len);
                self.at = self.at.saturating_add(found.len as u64);
                Ok(head)
            }
            Err(error) => Err(error),
        }
    }
}
