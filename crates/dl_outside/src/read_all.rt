// Reading a source to its end.
ghost use Rattle.std.specs.Prelude.{◌≡◌, ◌≢◌, ◌≤◌, ◌<◌, ◌⊎◌, IfOk, IfSome, IsErr, IsOk, OnOk, OnErr, length};
ghost use Rattle.std.specs.Io.KnownBytes.{IsAtEnd};
ghost use Rattle.dl_outside.specs.Faults.{HasRisen};
ghost use Rattle.dl_outside.specs.Reading.{AddsPiece, ConsumesSome};

use crate::{Failed, Source};
use std::alloc::{AllocError, Global};
use thiserror::Error;

/// Why reading to the end stopped before it.
#[derive(Clone, Copy, Debug, PartialEq, Eq, Error)]
pub enum ReadEnd {
    /// A read failed.
    #[error("a read failed")]
    Fault,
    /// There are more bytes than the limit.
    #[error("there are more bytes than the limit")]
    TooLong,
    /// There is no memory for the bytes.
    #[error("there is not enough memory")]
    NoMemory,
}

impl From<AllocError> for ReadEnd {
    ghost use Rattle.std.specs.Prelude.{◌≡◌};
    ghost use Rattle.dl_outside.specs.declared.read_all.ReadEnd.TheVariants.{NoMemory};

    ghost from_gives = { λ _ end. end ≡ NoMemory };

    fn from(_: AllocError) -> ReadEnd {
        ReadEnd::NoMemory
    }
}

// How many bytes one read asks for: large, since each read may be a call of the system.
const PIECE: usize = 65536;

// Reads once, and puts what came behind the bytes that came before.
fn read_more<S: Source>(
    source: &mut S,
    room: &mut [u8],
    bytes: &mut Vec<u8>,
) -> Result<usize, ReadEnd>
    requires { 0 < length room.old }
    ensures more { IfOk result (λ n. AddsPiece n (S.left source.old) bytes.old.items (S.left source.new) bytes.new.items) }
    ensures lost { OnErr result (ConsumesSome (S.left source.old) (S.left source.new)) }
    ensures later { S.faults source.old ≤ S.faults source.new }
    ensures cause { result ≡ Err ReadEnd.Fault → HasRisen (S.faults source.old) (S.faults source.new) }
    ensures short { result ≢ Err ReadEnd.TooLong }
{
    match source.read(room) {
        Ok(n) => {
            bytes.extend_from_slice(&room[..n])?;
            Ok(n)
        }
        Err(Failed) => Err(ReadEnd::Fault),
    }
}

/// All bytes that are left of the source, where there are at most as many as the limit.
///
/// Reads in pieces of 64 KiB. What is held is the bytes, in a list that grows by doubling, and one piece.
///
/// # Errors
///
/// `Fault` where a read failed, `TooLong` as soon as more bytes than the limit have come, and `NoMemory`. What was read
/// until then is lost.
pub fn read_to_limit<S: Source>(
    alloc: Global,
    source: &mut S,
    limit: usize,
) -> Result<Vec<u8>, ReadEnd>
    ensures all { IfOk result (λ bytes. IfSome (S.left source.old) (λ left. bytes.items ≡ left)) }
    ensures bound { IfOk result (λ bytes. length bytes.items ≤ limit) }
    ensures end { OnOk result (IsAtEnd (S.left source.new)) }

    ensures too_long { result ≡ Err ReadEnd.TooLong → IfSome (S.left source.old) (λ left. limit < length left) }
    ensures longer { IfSome (S.left source.old) (λ left. limit < length left → IsErr result) }
    ensures fits { IfSome (S.left source.old) (λ left. length left ≤ limit → IsOk result ⊎ (result ≡ Err ReadEnd.Fault) ⊎ (result ≡ Err ReadEnd.NoMemory)) }
    ensures lost { OnErr result (ConsumesSome (S.left source.old) (S.left source.new)) }

    ensures later { S.faults source.old ≤ S.faults source.new }
    ensures cause { result ≡ Err ReadEnd.Fault → HasRisen (S.faults source.old) (S.faults source.new) }
{
    let mut room = [0u8; PIECE];
    let mut bytes = Vec::new(alloc);
    loop {
        let n = read_more(source, &mut room, &mut bytes)?;
        if n == 0 {
            return Ok(bytes);
        }
        if bytes.len() > limit {
            return Err(ReadEnd::TooLong);
        }
    }
}
