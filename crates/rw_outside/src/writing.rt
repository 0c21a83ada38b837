// A text is written to a sink.
ghost use Rattle.std.specs.Prelude.{◌≡◌};
ghost use Rattle.rw_outside.specs.declared.writing.WriteEnd.TheVariants.{Fault};
ghost use Rattle.rw_outside.specs.Faults.{count_after};
ghost use Rattle.rw_outside.specs.Writing.{WritesAll};

use crate::failed::Failed;
use crate::sink::Sink;
use thiserror::Error;

/// Why a text was not written whole.
#[derive(Clone, Copy, Debug, PartialEq, Eq, Error)]
pub enum WriteEnd {
    #[error("writing failed")]
    Fault,
}

impl From<Failed> for WriteEnd {
    ghost from_gives = { λ _ end. end ≡ Fault };

    fn from(_: Failed) -> WriteEnd {
        WriteEnd::Fault
    }
}

/// Appends all of `text` to a sink, in as many calls as it takes, and no memory. It gives up at the
/// first failed call.
pub fn write_all<K: Sink>(sink: &mut K, text: &[u8]) -> Result<(), WriteEnd>
    ensures bytes { WritesAll text.now (K.held sink.old) (K.held sink.new) result }
    ensures faults { K.faults sink.new ≡ count_after (K.faults sink.old) result }
{
    let mut rest = text;
    while !rest.is_empty() {
        let count = sink.put(rest)?;
        rest = rest.split_at(count).1;
    }
    Ok(())
}
