// Finding the head at the front of the pending bytes.
ghost use Rattle.std.specs.Prelude.{◌≡◌, ◌≢◌, ◌≤◌, ◌<◌, [], ℕ, List, Err, IfOk, IfSome, OnErr, length, take};
ghost use Rattle.std.specs.Io.KnownBytes.{Keeps, prepend_known};
ghost use Rattle.dl_outside.specs.Faults.{HasRisen};
ghost use Rattle.httparse.specs.Grammar.{HasNoRequest, RequestHead};
ghost use Rattle.httparse.specs.Outcome.{IfComplete, OnPartial};
ghost use Rattle.httparse.specs.Spans.{IsRequestOf, IsRequestWithin, RequestOverflows};
ghost use Rattle.http_wire.specs.Heads.{HasNoHead, LacksHead, IsFoundAt};

use crate::MAX_HEAD;
use crate::buffer::Buffer;
use dl_outside::{Failed, Source};
use httparse::Status;
use httparse::spans::{HeaderSpan, RequestSpans, parse_request};

/// Why no head was found.
#[derive(Clone, Copy)]
pub enum NoHead {
    Bad,
    Fault,
}

/// Reads until the pending bytes, of which there are some, begin with a head, and says where its parts are. The bytes stay
/// pending.
pub fn find_head<S: Source>(
    buffer: &mut Buffer,
    source: &mut S,
    spans: &mut [HeaderSpan],
) -> Result<RequestSpans, NoHead>
    requires room { length spans.old ≡ 64 }
    requires some { buffer.old ≢ [] }
    ensures within { IfOk result (IsRequestWithin (take 16384 buffer.new) spans.new) }
    ensures head { IfOk result (λ found. (tree : RequestHead) × IsFoundAt (take 16384 buffer.new) spans.new found tree) }
    ensures bad { result ≡ Err NoHead.Bad → IfSome (prepend_known buffer.old (S.left source.old)) LacksHead }
    ensures fault { result ≡ Err NoHead.Fault → HasRisen (S.faults source.old) (S.faults source.new) }
    ensures unread { result ≡ Err NoHead.Fault → HasNoHead buffer.new }
    ensures keeps { Keeps (prepend_known buffer.old (S.left source.old)) (prepend_known buffer.new (S.left source.new)) }
    ensures later { S.faults source.old ≤ S.faults source.new }
{
    let mut seen = 0;
    loop {
        match parse_new(buffer.front(), seen, spans) {
            Ok(Status::Complete(found)) => return Ok(found),
            Ok(Status::Partial) => {}
            Err(_) => return Err(NoHead::Bad),
        }
        seen = buffer.len();
        if seen >= MAX_HEAD {
            return Err(NoHead::Bad);
        }
        match buffer.refill(source) {
            Ok(0) => return Err(NoHead::Bad),
            Ok(_) => {}
            Err(Failed) => return Err(NoHead::Fault),
        }
    }
}

// Parses bytes of which the first were seen to hold no head. A head ends with a line, so nothing is parsed before a line has
// ended in the new bytes: the cost of a head stays linear where the source gives it byte by byte.
fn parse_new(bytes: &[u8], seen: usize, spans: &mut [HeaderSpan]) -> httparse::Result<RequestSpans>
    requires within { seen ≤ length bytes.now }
    requires none { HasNoRequest (take seen bytes.now) }
    ensures within { IfComplete result (IsRequestWithin bytes.now spans.new) }
    ensures complete { IfComplete result (IsRequestOf bytes.now spans.new) }
    ensures partial { OnPartial result (HasNoRequest bytes.now) }
    ensures no_room { OnErr result (RequestOverflows (length spans.old) bytes.now) }
{
    if !bytes[seen..].contains(&b'\n') {
        return Ok(Status::Partial);
    }
    parse_request(bytes, spans)
}
