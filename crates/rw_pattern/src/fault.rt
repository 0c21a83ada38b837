//! Why lists are no pattern.

ghost use Rattle.std.specs.Prelude.{◌≡◌};

use rw_schema::OutOfMemory;
use thiserror::Error;

/// Why `Pattern::build` refuses its parts: the first of these that holds.
#[derive(Clone, Copy, Debug, PartialEq, Eq, Error)]
pub enum PatternFault {
    /// There is not one size for each object and one row for each arrow, or a row has not one image for each part.
    #[error("a list has a wrong length")]
    Shape,
    /// More than 64 parts, or more than 256 entries on cells.
    #[error("a limit is passed")]
    Limit,
    /// An image is no part of its arrow's target, or an entry's part is none of its attribute's object.
    #[error("an image or a part is not there")]
    Range,
    /// The constant of the entry is of another kind than its attribute.
    #[error("a constant is of another kind than its attribute")]
    Kind { cell: u32 },
    /// The variable of the entry is not there, or is of another kind than its attribute.
    #[error("a variable is not there or is of another kind")]
    Variable { cell: u32 },
    /// The two sides of the equation lead from the part to different parts.
    #[error("an equation does not hold")]
    Equation { equation: u32, part: u32 },
    #[error("out of memory")]
    OutOfMemory,
}

impl From<OutOfMemory> for PatternFault {
    ghost use Rattle.rw_pattern.specs.declared.fault.PatternFault.TheVariants.{OutOfMemory};

    ghost from_gives = { λ _ fault. fault ≡ OutOfMemory };

    fn from(_error: OutOfMemory) -> PatternFault {
        PatternFault::OutOfMemory
    }
}
