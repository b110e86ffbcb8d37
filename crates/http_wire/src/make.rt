// Making a head out of the pending bytes.
ghost use Rattle.std.specs.Prelude.{◌≡◌, ◌⊎◌, ℕ, IfErr, IfOk};
ghost use Rattle.httparse.specs.Grammar.{RequestHead};
ghost use Rattle.httparse.specs.Spans.{IsRequestWithin};
ghost use Rattle.http_wire.specs.Heads.{IsFoundAt, IsHeadOf, MakeFault};

use crate::length::body_length;
use crate::{BodyLength, Fields, Head, HeadText, WireError};
use httparse::spans::{HeaderSpan, RequestSpans};
use std::alloc::Global;

/// The head whose parts lie at these places of the bytes, which begin at a place of the input.
pub fn make_head(
    alloc: Global,
    at: u64,
    bytes: &[u8],
    found: RequestSpans,
    spans: &[HeaderSpan],
) -> Result<Head, WireError>
    requires within { IsRequestWithin bytes.now spans.now found }
    requires head { (tree : RequestHead) × IsFoundAt bytes.now spans.now found tree }
    ensures head { IfOk result (λ head. (tree : RequestHead) → IsFoundAt bytes.now spans.now found tree → IsHeadOf at tree head) }
    ensures fault { IfErr result (λ error. (tree : RequestHead) → IsFoundAt bytes.now spans.now found tree → MakeFault at tree error) }
{
    let Ok(fields) = Fields::copied(alloc, &bytes[..found.len], &spans[..found.headers]) else {
        return Err(WireError::NoMemory);
    };
    let Some(length) = body_length(&fields) else {
        return Err(WireError::BadLength { at });
    };
    let Ok(method) = HeadText::from_bytes(alloc, found.method.of(bytes)) else {
        return Err(WireError::NoMemory);
    };
    let Ok(target) = HeadText::from_bytes(alloc, found.path.of(bytes)) else {
        return Err(WireError::NoMemory);
    };
    Ok(Head {
        method,
        target,
        fields,
        minor: found.version,
        at,
        body: BodyLength::Fixed(length),
    })
}
