// What takes bytes.
ghost use Rattle.std.specs.Prelude.{ℕ, Option, List, IfOk, IsErr, OnOk, OnErr, length, ◌≤◌, ◌<◌};
ghost use Rattle.std.specs.Io.KnownBytes.{WriteAppends, Appends};
ghost use Rattle.dl_outside.specs.Faults.{HasRisen};
ghost use Rattle.dl_outside.specs.Writing.{AppendsFront};

use crate::Failed;

/// Takes bytes, and counts its faults.
pub trait Sink {
    // The bytes that were written, where the sink tells them.
    ghost written: { Self → Option (List ℕ) };

    // How often the sink has failed. The count never falls, and stands still at the end of its type.
    ghost faults: { Self → ℕ };

    /// Writes a front of the bytes, at least one where there is one, and answers how many.
    fn write(&mut self, bytes: &[u8]) -> Result<usize, Failed>
        ensures bound { IfOk result (λ n. n ≤ length bytes.now) }
        ensures some { IfOk result (λ n. 0 < length bytes.now → 0 < n) }
        ensures bytes { WriteAppends (written self.old) (written self.new) result bytes.now }
        ensures later { faults self.old ≤ faults self.new }
        ensures cause { IsErr result → HasRisen (faults self.old) (faults self.new) };
}

/// Writes all the bytes, in as many writes as the sink needs: one where it takes them whole. Takes no memory.
///
/// # Errors
///
/// `Failed` where a write failed. Then a front of the bytes was written.
pub fn write_all<K: Sink>(sink: &mut K, bytes: &[u8]) -> Result<(), Failed>
    ensures ok { OnOk result (Appends (K.written sink.old) (K.written sink.new) bytes.now) }
    ensures err { OnErr result (AppendsFront (K.written sink.old) (K.written sink.new) bytes.now) }
    ensures later { K.faults sink.old ≤ K.faults sink.new }
    ensures cause { IsErr result → HasRisen (K.faults sink.old) (K.faults sink.new) }
{
    let mut at = 0;
    while at < bytes.len() {
        at += sink.write(&bytes[at..])?;
    }
    Ok(())
}
