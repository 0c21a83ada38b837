// A sink over std's writers: the trusted edge of output.
ghost use Rattle.std.specs.Prelude.{◌≡◌, ◌<◌, IfOk, length, take};
ghost use Rattle.std.specs.Io.{WritesAtMost};
ghost use Rattle.std.specs.Io.KnownBytes.{WriteAppends, Appends};
ghost use Rattle.rw_outside.specs.Faults.{count_after};

use crate::failed::Failed;
use crate::sink::Sink;
use std::io;
use std::io::Write;

/// A sink over a writer, which it flushes after each write. Each `Err` of a write or a flush is a
/// fault, and so is a write of 0 bytes of a piece that is not empty. It tells no bytes, since a flush
/// may fail after a write. std says of a flush no more than that known bytes stay; so that it comes,
/// after the write, and that its `Err` is a fault, is tested and not proved.
#[derive(Drop)]
pub struct StdSink<W: Write> {
    writer: W,
    faults: u64,
}

impl<W: Write> StdSink<W> {
    ghost use Rattle.rw_outside.specs.StdSink.{writer_of};

    /// A sink over this writer that has seen no fault.
    pub fn new(writer: W) -> StdSink<W>
        ensures writer { writer_of result ≡ writer }
        ensures faults { ⟦<StdSink<W> as Sink>⟧.faults result ≡ 0 }
    {
        StdSink { writer, faults: 0 }
    }
}

fn write_and_flush<W: Write>(writer: &mut W, piece: &[u8]) -> io::Result<usize>
    ensures bound { WritesAtMost result piece.now }
    ensures bytes { IfOk result (λ count. Appends (W.contents writer.old) (W.contents writer.new)
        (take count piece.now)) }
{
    let count = writer.write(piece)?;
    writer.flush()?;
    Ok(count)
}

impl<W: Write> Sink for StdSink<W> {
    ghost use Rattle.std.specs.Prelude.{None};
    ghost use Rattle.rw_outside.specs.StdSink.{writer_of};

    ghost held = { λ s. None };

    ghost faults = { λ s. s.faults };

    fn put(&mut self, piece: &[u8]) -> Result<usize, Failed>
        ensures bound { WritesAtMost result piece.now }
        ensures progress { IfOk result (λ count. 0 < length piece.now → 0 < count) }
        ensures bytes { WriteAppends None None result piece.now }
        ensures faults { let sink = ⟦<StdSink<W> as Sink>⟧ in
            sink.faults self.new ≡ count_after (sink.faults self.old) result }

        ensures written { IfOk result (λ count. Appends (W.contents (writer_of self.old))
            (W.contents (writer_of self.new)) (take count piece.now)) }
    {
        match write_and_flush(&mut self.writer, piece) {
            Ok(count) if piece.is_empty() || count > 0 => Ok(count),
            _ => {
                self.faults = self.faults.saturating_add(1);
                Err(Failed)
            }
        }
    }
}
