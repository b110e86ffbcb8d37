// What gives bytes.
ghost use Rattle.std.specs.Prelude.{ℕ, Option, List, IsErr, ◌≤◌};
ghost use Rattle.std.specs.Io.KnownBytes.{ReadConsumes};
ghost use Rattle.std.specs.Io.{ReadsAtMost};
ghost use Rattle.dl_outside.specs.Faults.{HasRisen};

use crate::Failed;

/// Gives bytes, and counts its faults.
pub trait Source {
    // The bytes that are left, where the source tells them.
    ghost left: { Self → Option (List ℕ) };

    // How often the source has failed. The count never falls, and stands still at the end of its type.
    ghost faults: { Self → ℕ };

    /// Reads into the front of the room, and answers how many bytes. None read into room that is not empty is the end.
    fn read(&mut self, room: &mut [u8]) -> Result<usize, Failed>
        ensures bound { ReadsAtMost result room.new }
        ensures bytes { ReadConsumes (left self.old) (left self.new) result room.new }
        ensures later { faults self.old ≤ faults self.new }
        ensures cause { IsErr result → HasRisen (faults self.old) (faults self.new) };
}
