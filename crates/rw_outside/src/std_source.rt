// A source over std's readers: the trusted edge of input.
ghost use Rattle.std.specs.Prelude.{◌≡◌};
ghost use Rattle.std.specs.Io.{ReadsAtMost};
ghost use Rattle.std.specs.Io.KnownBytes.{ReadConsumes};
ghost use Rattle.rw_outside.specs.Faults.{count_after};

use crate::failed::Failed;
use crate::source::Source;
use std::io::Read;

/// A source over a reader. Each `Err` of the reader is a fault, an interrupted read too. It tells the
/// bytes that the reader tells; those of standard input are told by nobody.
#[derive(Drop)]
pub struct StdSource<R: Read> {
    reader: R,
    faults: u64,
}

impl<R: Read> StdSource<R> {
    /// A source over this reader that has seen no fault.
    pub fn new(reader: R) -> StdSource<R>
        ensures left { ⟦<StdSource<R> as Source>⟧.left result ≡ R.remaining reader }
        ensures faults { ⟦<StdSource<R> as Source>⟧.faults result ≡ 0 }
    {
        StdSource { reader, faults: 0 }
    }
}

impl<R: Read> Source for StdSource<R> {
    ghost left = { λ s. R.remaining s.reader };

    ghost faults = { λ s. s.faults };

    fn take(&mut self, room: &mut [u8]) -> Result<usize, Failed>
        ensures bound { ReadsAtMost result room.new }
        ensures bytes { let source = ⟦<StdSource<R> as Source>⟧ in
            ReadConsumes (source.left self.old) (source.left self.new) result room.new }
        ensures faults { let source = ⟦<StdSource<R> as Source>⟧ in
            source.faults self.new ≡ count_after (source.faults self.old) result }
    {
        match self.reader.read(room) {
            Ok(count) => Ok(count),
            Err(_) => {
                self.faults = self.faults.saturating_add(1);
                Err(Failed)
            }
        }
    }
}
