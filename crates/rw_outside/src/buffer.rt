// A text is written to a sink in pieces.
ghost use Rattle.std.specs.Prelude.{◌≡◌, ◌++◌, ◌∷◌, [], IfOk, OnOk, length};
ghost use Rattle.rw_outside.specs.Faults.{count_after};
ghost use Rattle.rw_outside.specs.Writing.{WritesAll, WritesOn};

use crate::sink::Sink;
use crate::writing::{WriteEnd, write_all};
use std::alloc::{AllocError, Global};
use std::marker::Model;

/// Bytes on their way to a sink: they wait until a piece is full. Contracts see those that wait.
#[derive(Drop)]
pub struct Buffer {
    bytes: Vec<u8>,
    room: usize,
}

impl Model for Buffer {
    ghost use Rattle.std.specs.Prelude.{◌≤◌, ℕ, List, vec_len, vec_capacity};

    ghost Value = { List ℕ };

    ghost view = { λ buffer. buffer.bytes.items };

    ghost invariant = { λ buffer. (vec_len buffer.bytes ≤ buffer.room) × (buffer.room ≤ vec_capacity buffer.bytes) };
}

impl Buffer {
    /// An empty buffer. All its room is taken here.
    pub fn new(alloc: Global, room: usize) -> Result<Buffer, AllocError>
        ensures { IfOk result (λ buffer. buffer ≡ []) }
    {
        let bytes = Vec::with_capacity(alloc, room)?;
        Ok(Buffer { bytes, room })
    }

    /// Puts more text behind the bytes that wait. Where it does not fit, these are written first, and a text longer
    /// than a piece is written at once. It takes no memory.
    pub fn put<K: Sink>(&mut self, sink: &mut K, text: &[u8]) -> Result<(), WriteEnd>
        ensures bytes { WritesOn (self.old ++ text.now) (K.held sink.old) (K.held sink.new) self.new result }
        ensures faults { K.faults sink.new ≡ count_after (K.faults sink.old) result }
    {
        if text.len() <= self.room - self.bytes.len() {
            self.bytes.extend_from_slice(text).unwrap();
            return Ok(());
        }
        self.flush(sink)?;
        self.begin(sink, text)
    }

    /// Puts text into the empty buffer, or writes it at once where it is longer than a piece.
    fn begin<K: Sink>(&mut self, sink: &mut K, text: &[u8]) -> Result<(), WriteEnd>
        requires { self.old ≡ [] }
        ensures bytes { WritesOn text.now (K.held sink.old) (K.held sink.new) self.new result }
        ensures faults { K.faults sink.new ≡ count_after (K.faults sink.old) result }
    {
        if text.len() > self.room {
            return write_all(sink, text);
        }
        self.bytes.extend_from_slice(text).unwrap();
        Ok(())
    }

    /// Writes the bytes that wait.
    pub fn flush<K: Sink>(&mut self, sink: &mut K) -> Result<(), WriteEnd>
        ensures bytes { WritesAll self.old (K.held sink.old) (K.held sink.new) result }
        ensures none { OnOk result (self.new ≡ []) }
        ensures faults { K.faults sink.new ≡ count_after (K.faults sink.old) result }
    {
        write_all(sink, self.bytes.as_slice())?;
        self.bytes.clear();
        Ok(())
    }
}
