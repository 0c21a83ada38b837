// What bytes are written to.
ghost use Rattle.std.specs.Prelude.{◌≡◌, ℕ, ◌<◌, List, Option, IfOk, length};
ghost use Rattle.std.specs.Io.{WritesAtMost};
ghost use Rattle.std.specs.Io.KnownBytes.{WriteAppends};
ghost use Rattle.rw_outside.specs.Faults.{count_after};

use crate::failed::Failed;

/// A sink of bytes, as standard output. It counts its faults, so a failed call has a cause that
/// contracts can name.
pub trait Sink {
    /// The bytes that it holds, where the sink tells them.
    ghost held: { Self → Option (List ℕ) };

    /// How often it has failed. This never falls.
    ghost faults: { Self → ℕ };

    /// Appends bytes from the front of `piece`, and gives their number: at least 1 for a piece that
    /// is not empty. A failed call appends nothing, and is counted.
    fn put(&mut self, piece: &[u8]) -> Result<usize, Failed>
        ensures bound { WritesAtMost result piece.now }
        ensures progress { IfOk result (λ count. 0 < length piece.now → 0 < count) }
        ensures bytes { WriteAppends (held self.old) (held self.new) result piece.now }
        ensures faults { faults self.new ≡ count_after (faults self.old) result };
}
