// A reader and a writer of std that fail in mid-stream.
use std::io::{self, ErrorKind, Read, Write};

/// Gives one byte at a read, and then an error.
#[derive(Drop)]
pub struct BreaksOff {
    pub bytes: u8,
}

impl Read for BreaksOff {
    fn read(&mut self, buf: &mut [u8]) -> io::Result<usize> {
        if self.bytes == 0 || buf.is_empty() {
            return Err(ErrorKind::ConnectionReset.into());
        }
        self.bytes -= 1;
        buf[0] = b'x';
        Ok(1)
    }
}

/// Takes one byte at a write, and from some write on none.
#[derive(Drop)]
pub struct TakesOne {
    pub kept: Vec<u8>,
    pub room: usize,
}

impl Write for TakesOne {
    fn write(&mut self, buf: &[u8]) -> io::Result<usize> {
        if self.room == 0 || buf.is_empty() {
            return Ok(0);
        }
        self.kept.push(buf[0])?;
        self.room -= 1;
        Ok(1)
    }

    fn flush(&mut self) -> io::Result<()> {
        Ok(())
    }
}
