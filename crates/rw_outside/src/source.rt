// What bytes are read from.
ghost use Rattle.std.specs.Prelude.{◌≡◌, ℕ, List, Option};
ghost use Rattle.std.specs.Io.{ReadsAtMost};
ghost use Rattle.std.specs.Io.KnownBytes.{ReadConsumes};
ghost use Rattle.rw_outside.specs.Faults.{count_after};

use crate::failed::Failed;

/// A source of bytes, as standard input. It counts its faults, so a failed call has a cause that
/// contracts can name.
pub trait Source {
    /// The bytes that are left, where the source tells them.
    ghost left: { Self → Option (List ℕ) };

    /// How often it has failed. This never falls.
    ghost faults: { Self → ℕ };

    /// Takes bytes from the front of what is left into the front of `room`, and gives their number.
    /// For a room that is not empty, 0 comes only at the end. A failed call takes nothing, and is
    /// counted.
    fn take(&mut self, room: &mut [u8]) -> Result<usize, Failed>
        ensures bound { ReadsAtMost result room.new }
        ensures bytes { ReadConsumes (left self.old) (left self.new) result room.new }
        ensures faults { faults self.new ≡ count_after (faults self.old) result };
}
