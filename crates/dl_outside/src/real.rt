// A source over std's reader and a sink over std's writer: the trusted edge, which tells no content.
ghost use Rattle.std.specs.Prelude.{◌≡◌, None};

use crate::{Failed, Sink, Source};
use std::io::{Read, Write};
use std::marker::Model;

/// A reader of std, as a file, a socket or the standard input. Each error of a read counts as a fault.
///
/// Contracts see its count of faults.
#[derive(Drop)]
pub struct ReaderSource<R> {
    reader: R,
    failures: u64,
}

impl<R> Model for ReaderSource<R> {
    ghost use Rattle.std.specs.Prelude.{ℕ};

    ghost Value = { ℕ };

    ghost view = { λ s. s.failures };
}

impl<R: Read> ReaderSource<R> {
    /// A source that has not failed yet.
    pub fn new(reader: R) -> ReaderSource<R>
        ensures { result ≡ 0 }
    {
        ReaderSource {
            reader,
            failures: 0,
        }
    }
}

impl<R: Read> Source for ReaderSource<R> {
    ghost left = { λ _. None };

    ghost faults = { λ count. count };

    fn read(&mut self, room: &mut [u8]) -> Result<usize, Failed> {
        match self.reader.read(room) {
            Ok(n) => Ok(n),
            Err(_) => {
                self.failures = self.failures.saturating_add(1);
                Err(Failed)
            }
        }
    }
}

/// A writer of std, as a file, a socket or the standard output. Each error of a write counts as a fault, and so does a
/// write that takes none of some bytes.
///
/// Contracts see its count of faults.
#[derive(Drop)]
pub struct WriterSink<W> {
    writer: W,
    failures: u64,
}

impl<W> Model for WriterSink<W> {
    ghost use Rattle.std.specs.Prelude.{ℕ};

    ghost Value = { ℕ };

    ghost view = { λ s. s.failures };
}

impl<W: Write> WriterSink<W> {
    /// A sink that has not failed yet.
    pub fn new(writer: W) -> WriterSink<W>
        ensures { result ≡ 0 }
    {
        WriterSink {
            writer,
            failures: 0,
        }
    }
}

impl<W: Write> Sink for WriterSink<W> {
    ghost written = { λ _. None };

    ghost faults = { λ count. count };

    fn write(&mut self, bytes: &[u8]) -> Result<usize, Failed> {
        match self.writer.write(bytes) {
            Ok(n) if n > 0 || bytes.is_empty() => Ok(n),
            _ => {
                self.failures = self.failures.saturating_add(1);
                Err(Failed)
            }
        }
    }
}
