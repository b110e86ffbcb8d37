// The bytes that have left the source and were not handed out yet.
ghost use Rattle.std.specs.Prelude.{◌≡◌, ◌≢◌, ◌≤◌, ◌<◌, ◌+◌, ◌-◌, [], IfOk, IsErr, MatchBool, MatchResult, drop, length, slice_range, take};
ghost use Rattle.std.specs.Io.KnownBytes.{IsAtEnd, Keeps, prepend_known};
ghost use Rattle.dl_outside.specs.Faults.{HasRisen};
ghost use Rattle.dl_outside.specs.Reading.{AddsPiece};

use crate::MAX_HEAD;
use dl_outside::{Failed, Source};
use std::marker::Model;

// Large, since a body is read through it, and more than twice the longest head: a shift to the front then moves fewer
// bytes than were handed out since the last one, so that its cost is a constant for each byte.
const ROOM: usize = 65536;

/// The pending bytes, oldest first. It takes no memory but its own.
#[derive(Drop)]
pub struct Buffer {
    bytes: [u8; ROOM],
    start: usize,
    end: usize,
}

impl Model for Buffer {
    ghost use Rattle.std.specs.Prelude.{List, ℕ, ◌≤◌, slice_range};

    ghost Value = { List ℕ };

    ghost view = { λ b. slice_range b.bytes b.start b.end };

    ghost invariant = { λ b. (b.start ≤ b.end) × (b.end ≤ 65536) };
}

impl Buffer {
    /// No bytes.
    pub fn new() -> Buffer
        ensures { result ≡ [] }
    {
        Buffer {
            bytes: [0; ROOM],
            start: 0,
            end: 0,
        }
    }

    /// How many bytes there are.
    pub fn len(&self) -> usize
        ensures { result ≡ length self.now }
    {
        self.end - self.start
    }

    /// The front of the bytes, as long as a head may be.
    pub fn front(&self) -> &[u8]
        ensures { result.now ≡ take 16384 self.now }
    {
        let end = self.end.min(self.start + MAX_HEAD);
        &self.bytes[self.start..end]
    }

    /// Lets go of the first bytes.
    pub fn consume(&mut self, count: usize)
        requires { count ≤ length self.old }
        ensures { self.new ≡ drop count self.old }
    {
        self.start += count;
    }

    /// Reads once from the source where there are no bytes, and tells whether there are some then.
    pub fn fill<S: Source>(&mut self, source: &mut S) -> Result<bool, Failed>
        ensures some { IfOk result (λ some. MatchBool some (self.new ≢ []) ((self.new ≡ []) × IsAtEnd (S.left source.new))) }
        ensures none { IsErr result → self.new ≡ [] }
        ensures keeps { Keeps (prepend_known self.old (S.left source.old)) (prepend_known self.new (S.left source.new)) }
        ensures later { S.faults source.old ≤ S.faults source.new }
        ensures cause { IsErr result → HasRisen (S.faults source.old) (S.faults source.new) }
    {
        if self.len() > 0 {
            return Ok(true);
        }
        match self.refill(source) {
            Ok(count) => Ok(count > 0),
            Err(Failed) => Err(Failed),
        }
    }

    /// Reads once from the source, behind the bytes that are there.
    pub fn refill<S: Source>(&mut self, source: &mut S) -> Result<usize, Failed>
        requires { length self.old < 16384 }
        ensures read { MatchResult result (λ n. AddsPiece n (S.left source.old) self.old (S.left source.new) self.new) (λ _. (self.new ≡ self.old) × Keeps (S.left source.old) (S.left source.new)) }
        ensures later { S.faults source.old ≤ S.faults source.new }
        ensures cause { IsErr result → HasRisen (S.faults source.old) (S.faults source.new) }
    {
        let (start, end) = with_room(&mut self.bytes, self.start, self.end);
        self.start = start;
        self.end = end;
        match source.read(&mut self.bytes[end..]) {
            Ok(count) => {
                self.end += count;
                Ok(count)
            }
            Err(Failed) => Err(Failed),
        }
    }
}

// Where the bytes from start to end stand once there is room behind them: at the front, where they are none or reached
// the end.
fn with_room(bytes: &mut [u8], start: usize, end: usize) -> (usize, usize)
    requires order { start ≤ end }
    requires within { end ≤ 65536 }
    requires whole { length bytes.old ≡ 65536 }
    requires short { end - start < 16384 }
    ensures order { result.0 ≤ result.1 }
    ensures room { result.1 < 65536 }
    ensures same { slice_range bytes.new result.0 result.1 ≡ slice_range bytes.old start end }
{
    if start == end {
        return (0, 0);
    }
    if end < ROOM {
        return (start, end);
    }
    let count = end - start;
    move_to_front(bytes, start, count);
    (0, count)
}

// Moves some bytes from a place to the front.
fn move_to_front(bytes: &mut [u8], start: usize, count: usize)
    requires { start + count ≤ length bytes.old }
    ensures { take count bytes.new ≡ take count (drop start bytes.old) }
{
    for i in 0..count {
        bytes[i] = bytes[start + i];
    }
}
