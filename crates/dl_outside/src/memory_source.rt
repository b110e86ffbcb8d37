// A source in memory.
ghost use Rattle.std.specs.Prelude.{◌≡◌, ◌<◌, Some};

use crate::{Failed, Source};
use std::marker::Model;

/// The bytes of a list, of which each read gives at most as many as a piece has. Chosen reads fail.
#[derive(Drop)]
pub struct MemorySource {
    bytes: Vec<u8>,
    at: usize,
    piece: usize,
    fails: Vec<u64>,
    calls: u64,
    failures: u64,
}

impl Model for MemorySource {
    ghost use Rattle.std.specs.Prelude.{◌<◌, ◌≤◌, length, drop};
    ghost use Rattle.dl_outside.specs.Memory.{Giver};

    ghost Value = { Giver };

    ghost view = { λ s. record { left = drop s.at s.bytes.items; faults = s.failures } };

    ghost invariant = { λ s. (s.at ≤ length s.bytes.items) × (0 < s.piece) };
}

impl MemorySource {
    /// A source of these bytes, in pieces of this length. The reads with these numbers, counted from 0, fail.
    pub fn new(bytes: Vec<u8>, piece: usize, fails: Vec<u64>) -> MemorySource
        requires { 0 < piece }
        ensures { result ≡ record { left = bytes.items; faults = 0 } }
    {
        MemorySource {
            bytes,
            at: 0,
            piece,
            fails,
            calls: 0,
            failures: 0,
        }
    }
}

impl Source for MemorySource {
    ghost left = { λ s. Some s.left };

    ghost faults = { λ s. s.faults };

    fn read(&mut self, room: &mut [u8]) -> Result<usize, Failed> {
        let call = self.calls;
        self.calls = self.calls.saturating_add(1);
        if self.fails.contains(&call) {
            self.failures = self.failures.saturating_add(1);
            return Err(Failed);
        }
        let left = self.bytes.len() - self.at;
        let n = left.min(self.piece).min(room.len());
        room[..n].copy_from_slice(&self.bytes[self.at..self.at + n]);
        self.at += n;
        Ok(n)
    }
}
