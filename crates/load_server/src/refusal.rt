// What answers a request that cannot be read.
ghost use Rattle.std.specs.Prelude.{◌≡◌, ◌≤◌};
ghost use Rattle.dl_outside.specs.Faults.{HasRisen};
ghost use Rattle.load_server.specs.Refusing.{Refuses, Tries};
ghost use Rattle.load_server.specs.Responses.{fault_body, wire_name};

use crate::SessionEnd;
use dl_outside::{Failed, Sink};
use http_wire::{WireError, write_response};

/// Answers a request that cannot be read with 400, and tells how the session ends. Where no device is at fault and no
/// request, as for want of memory, nothing is written. Takes no memory.
pub fn refuse<K: Sink>(sink: &mut K, error: WireError) -> SessionEnd
    ensures did { Refuses error (K.written sink.old) (K.written sink.new) result }
    ensures later { K.faults sink.old ≤ K.faults sink.new }
    ensures cause { result ≡ SessionEnd.WriteFault → HasRisen (K.faults sink.old) (K.faults sink.new) }
{
    match error {
        WireError::BadHead { at } => write_refusal(sink, at, error),
        WireError::BadLength { at } => write_refusal(sink, at, error),
        WireError::BodyTooLong { at } => write_refusal(sink, at, error),
        WireError::CutBody { at, .. } => write_refusal(sink, at, error),
        WireError::BadChunk { at } => write_refusal(sink, at, error),
        WireError::ReadFault => SessionEnd::ReadFault,
        WireError::NoMemory => SessionEnd::NoMemory,
    }
}

fn write_refusal<K: Sink>(sink: &mut K, at: u64, error: WireError) -> SessionEnd
    ensures did { Tries at error (K.written sink.old) (K.written sink.new) result }
    ensures later { K.faults sink.old ≤ K.faults sink.new }
    ensures cause { result ≡ SessionEnd.WriteFault → HasRisen (K.faults sink.old) (K.faults sink.new) }
{
    match write_response(sink, 400, true, refusal_body(error)) {
        Ok(()) => SessionEnd::Refused { at },
        Err(Failed) => SessionEnd::WriteFault,
    }
}

#[tactic(auto, unfolding(crate::specs::Responses::fault_body, json::specs::Print::escape_byte))]
fn refusal_body(error: WireError) -> &'static [u8]
    ensures { result.now ≡ fault_body (wire_name error) }
{
    match error {
        WireError::BadHead { .. } => b"{\"error\":\"BadHead\"}",
        WireError::BadLength { .. } => b"{\"error\":\"BadLength\"}",
        WireError::BodyTooLong { .. } => b"{\"error\":\"BodyTooLong\"}",
        WireError::CutBody { .. } => b"{\"error\":\"CutBody\"}",
        WireError::BadChunk { .. } => b"{\"error\":\"BadChunk\"}",
        WireError::ReadFault => b"{\"error\":\"ReadFault\"}",
        WireError::NoMemory => b"{\"error\":\"NoMemory\"}",
    }
}
