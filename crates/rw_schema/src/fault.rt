//! Why lists are no schema.

ghost use Rattle.std.specs.Prelude.{◌≡◌};

use crate::{OutOfMemory, Section};
use thiserror::Error;

/// Why `Schema::build` refuses its parts: the first of these that holds, at its least place.
#[derive(Clone, Copy, Debug, PartialEq, Eq, Error)]
pub enum SchemaFault {
    /// More than 64 objects or 256 arrows, attributes or equations, a name that has not 1 to 255 bytes, or a path of
    /// more than 32 arrows.
    #[error("a count or a name is outside its limits")]
    Limit,
    /// The name repeats an earlier one of its section.
    #[error("a name repeats an earlier one")]
    Twice { section: Section, index: u32 },
    /// A number of the entry names nothing.
    #[error("a number names nothing")]
    Unknown { section: Section, index: u32 },
    /// The arrows of a side of the equation do not meet, or its sides end apart.
    #[error("the sides of an equation do not meet")]
    Ends { equation: u32 },
    #[error("out of memory")]
    OutOfMemory,
}

impl From<OutOfMemory> for SchemaFault {
    ghost use Rattle.rw_schema.specs.declared.fault.SchemaFault.TheVariants.{OutOfMemory};

    ghost from_gives = { λ _ fault. fault ≡ OutOfMemory };

    fn from(_error: OutOfMemory) -> SchemaFault {
        SchemaFault::OutOfMemory
    }
}
