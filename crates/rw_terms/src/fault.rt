//! Why an operation is not added.

ghost use Rattle.std.specs.Prelude.{◌≡◌};

use rw_schema::OutOfMemory;
use thiserror::Error;

/// Why `OpTable::add` refuses an operation.
#[derive(Clone, Copy, Debug, PartialEq, Eq, Error)]
pub enum OpFault {
    /// An operation of the table has the name.
    #[error("an operation of the table has the name")]
    Twice,
    #[error("out of memory")]
    OutOfMemory,
}

impl From<OutOfMemory> for OpFault {
    ghost use Rattle.rw_terms.specs.declared.fault.OpFault.TheVariants.{OutOfMemory};

    ghost from_gives = { λ _ fault. fault ≡ OutOfMemory };

    fn from(_error: OutOfMemory) -> OpFault {
        OpFault::OutOfMemory
    }
}
