// A sink in memory.
ghost use Rattle.std.specs.Prelude.{◌≡◌, Some};

use crate::{Failed, Sink};
use std::marker::Model;

/// Keeps what is written. Chosen writes fail, and so does one for which there is no memory.
#[derive(Drop)]
pub struct MemorySink {
    bytes: Vec<u8>,
    fails: Vec<u64>,
    calls: u64,
    failures: u64,
}

impl Model for MemorySink {
    ghost use Rattle.dl_outside.specs.Memory.{Taker};

    ghost Value = { Taker };

    ghost view = { λ s. record { written = s.bytes.items; faults = s.failures } };
}

impl MemorySink {
    /// A sink to which these bytes were written before. The writes with these numbers, counted from 0, fail.
    pub fn new(bytes: Vec<u8>, fails: Vec<u64>) -> MemorySink
        ensures { result ≡ record { written = bytes.items; faults = 0 } }
    {
        MemorySink {
            bytes,
            fails,
            calls: 0,
            failures: 0,
        }
    }

    /// What was written.
    pub fn bytes(&self) -> &[u8]
        ensures { result.now ≡ self.now.written }
    {
        &self.bytes
    }
}

impl Sink for MemorySink {
    ghost written = { λ s. Some s.written };

    ghost faults = { λ s. s.faults };

    fn write(&mut self, bytes: &[u8]) -> Result<usize, Failed> {
        let call = self.calls;
        self.calls = self.calls.saturating_add(1);
        if self.fails.contains(&call) || self.bytes.extend_from_slice(bytes).is_err() {
            self.failures = self.failures.saturating_add(1);
            return Err(Failed);
        }
        Ok(bytes.len())
    }
}
