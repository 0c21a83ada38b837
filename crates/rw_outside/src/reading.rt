// A source is read to its end.
ghost use Rattle.std.specs.Prelude.{◌≡◌, IfOk, IfErr};
ghost use Rattle.rw_outside.specs.declared.reading.ReadEnd.TheVariants.{Fault, OutOfMemory};
ghost use Rattle.rw_outside.specs.Reading.{IsReadWhole, EndsEarly, count_after_reading};

use crate::failed::Failed;
use crate::source::Source;
use std::alloc::{AllocError, Global};
use thiserror::Error;

/// Why a source was not read to its end.
#[derive(Clone, Copy, Debug, PartialEq, Eq, Error)]
pub enum ReadEnd {
    #[error("reading failed")]
    Fault,
    #[error("the input is too long")]
    TooLong,
    #[error("out of memory")]
    OutOfMemory,
}

impl From<Failed> for ReadEnd {
    ghost from_gives = { λ _ end. end ≡ Fault };

    fn from(_: Failed) -> ReadEnd {
        ReadEnd::Fault
    }
}

impl From<AllocError> for ReadEnd {
    ghost from_gives = { λ _ end. end ≡ OutOfMemory };

    fn from(_: AllocError) -> ReadEnd {
        ReadEnd::OutOfMemory
    }
}

// How many bytes are asked for at a time.
const CHUNK: usize = 4096;

/// All bytes that are left in a source, at most `limit` of them. It gives up at the first failed call
/// and as soon as more bytes than the limit have come. What has come by then is gone from the source.
pub fn read_all<S: Source>(alloc: Global, source: &mut S, limit: usize) -> Result<Vec<u8>, ReadEnd>
    ensures whole { IfOk result (λ bytes. IsReadWhole limit (S.left source.old) (S.left source.new)
        bytes.items) }
    ensures early { IfErr result (EndsEarly limit (S.left source.old) (S.left source.new)) }
    ensures faults { S.faults source.new ≡ count_after_reading (S.faults source.old) result }
{
    let mut bytes = Vec::new(alloc);
    let mut room = [0; CHUNK];
    'chunks: loop {
        let count = source.take(&mut room)?;
        if count == 0 {
            return Ok(bytes);
        }
        if count > limit - bytes.len() {
            return Err(ReadEnd::TooLong);
        }
        bytes.extend_from_slice(&room[..count])?;
    }
}
