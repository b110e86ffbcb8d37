// Taking a body out of the pending bytes and the source.
ghost use Rattle.std.specs.Prelude.{◌≡◌, ◌≢◌, ◌≤◌, ◌<◌, [], Err, IfErr, IfOk, OnErr, OnOk, length};
ghost use Rattle.std.specs.Io.KnownBytes.{Consumes, prepend_known};
ghost use Rattle.dl_outside.specs.Reading.{ConsumesSome};
ghost use Rattle.http_wire.specs.Taking.{MovesPiece, StopsShort, TakesLess};

use crate::buffer::Buffer;
use dl_outside::{Failed, Source};
use std::alloc::{AllocError, Global};

/// Why no whole body was taken.
#[derive(Clone, Copy)]
pub enum NoBody {
    /// The input ended after so many of its bytes.
    Cut(usize),
    Fault,
    NoMemory,
}

/// The next bytes of the input, as many as are wanted.
pub fn take_body<S: Source>(
    alloc: Global,
    buffer: &mut Buffer,
    source: &mut S,
    wanted: usize,
) -> Result<Vec<u8>, NoBody>
    ensures whole { IfOk result (λ body. length body.items ≡ wanted) }
    ensures input { IfOk result (λ body. Consumes (prepend_known buffer.old (S.left source.old)) (prepend_known buffer.new (S.left source.new)) body.items) }
    ensures fault { IfErr result (StopsShort wanted (prepend_known buffer.old (S.left source.old)) (S.faults source.old) (S.faults source.new)) }
    ensures unread { result ≡ Err NoBody.Fault → TakesLess wanted (prepend_known buffer.old (S.left source.old)) (S.left source.new) }
    ensures lost { OnErr result (ConsumesSome (prepend_known buffer.old (S.left source.old)) (prepend_known buffer.new (S.left source.new))) }
    ensures later { S.faults source.old ≤ S.faults source.new }
{
    let Ok(mut body) = Vec::with_capacity(alloc, wanted) else {
        return Err(NoBody::NoMemory);
    };
    while body.len() < wanted {
        match buffer.fill(source) {
            Ok(true) => {}
            Ok(false) => return Err(NoBody::Cut(body.len())),
            Err(Failed) => return Err(NoBody::Fault),
        }
        if move_piece(buffer, &mut body, wanted).is_err() {
            return Err(NoBody::NoMemory);
        }
    }
    Ok(body)
}

// Moves the pending bytes that belong to the body to its end, some of them at least.
fn move_piece(buffer: &mut Buffer, body: &mut Vec<u8>, wanted: usize) -> Result<(), AllocError>
    requires some { buffer.old ≢ [] }
    requires short { length body.old.items < wanted }
    ensures ok { OnOk result (MovesPiece wanted buffer.old body.old.items buffer.new body.new.items) }
    ensures err { OnErr result (buffer.new ≡ buffer.old) }
{
    let front = buffer.front();
    let count = front.len().min(wanted - body.len());
    body.extend_from_slice(&front[..count])?;
    buffer.consume(count);
    Ok(())
}
