//! Why lists are no instance.

ghost use Rattle.std.specs.Prelude.{◌≡◌};

use rw_schema::{ArrowId, AttrId, ObjectId, OutOfMemory};
use thiserror::Error;

/// Why `Table::new` refuses lists: the first of these that holds, at its least place.
#[derive(Clone, Copy, Debug, PartialEq, Eq, Error)]
pub enum TableFault {
    /// There is not one list for each object, arrow and attribute, or a list has not one entry for each name.
    #[error("a list has a wrong length")]
    Shape,
    /// The names of the object do not ascend strictly, or one is not below the next name.
    #[error("names do not ascend below the next name")]
    Names { object: ObjectId },
    /// The image at the position is no name of the arrow's target.
    #[error("an image is no name of the target")]
    Range { arrow: ArrowId, position: u32 },
    /// The atom at the position is not of the attribute's kind.
    #[error("an atom is of another kind than its attribute")]
    Kind { attr: AttrId, position: u32 },
    /// The two sides of the equation lead from the name to different names.
    #[error("an equation does not hold")]
    Equation { equation: u32, name: u32 },
    #[error("out of memory")]
    OutOfMemory,
}

impl From<OutOfMemory> for TableFault {
    ghost use Rattle.rw_table.specs.declared.fault.TableFault.TheVariants.{OutOfMemory};

    ghost from_gives = { λ _ fault. fault ≡ OutOfMemory };

    fn from(_error: OutOfMemory) -> TableFault {
        TableFault::OutOfMemory
    }
}
