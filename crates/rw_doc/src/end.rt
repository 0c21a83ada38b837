//! Why a document was not read.

ghost use Rattle.std.specs.Prelude.{◌≡◌};
ghost use Rattle.rw_doc.specs.declared.end.ReadDocEnd.TheVariants.{OutOfMemory};

use crate::DocFault;
use rw_schema::OutOfMemory;
use std::alloc::{AllocError, AllocFailed};
use thiserror::Error;

/// Why a document was not read.
#[derive(Clone, Copy, Debug, PartialEq, Eq, Error)]
pub enum ReadDocEnd {
    #[error("the document has a fault")]
    Refused(DocFault),
    #[error("out of memory")]
    OutOfMemory,
}

impl From<OutOfMemory> for ReadDocEnd {
    ghost from_gives = { λ _ end. end ≡ OutOfMemory };

    fn from(_error: OutOfMemory) -> ReadDocEnd {
        ReadDocEnd::OutOfMemory
    }
}

impl From<AllocError> for ReadDocEnd {
    ghost from_gives = { λ _ end. end ≡ OutOfMemory };

    fn from(_error: AllocError) -> ReadDocEnd {
        ReadDocEnd::OutOfMemory
    }
}

impl<T: Drop> From<AllocFailed<T>> for ReadDocEnd {
    ghost from_gives = { λ _ end. end ≡ OutOfMemory };

    fn from(_failed: AllocFailed<T>) -> ReadDocEnd {
        ReadDocEnd::OutOfMemory
    }
}
