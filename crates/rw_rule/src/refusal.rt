//! Why a rule is not applied at a match.

ghost use Rattle.std.specs.Prelude.{◌≡◌, IfOk};

use rw_schema::{ArrowId, Atom, AttrId, ObjectId, OutOfMemory};
use std::alloc::Global;

/// Why a rule is not applied at a match: the first obstruction, at its least place.
#[derive(Drop)]
pub enum Refusal {
    /// The match gives two parts of the left pattern one name, and not both are kept.
    Identification {
        object: ObjectId,
        first: u32,
        second: u32,
    },
    /// The arrow leads from the part, which stays, to a part that is removed.
    Dangling {
        arrow: ArrowId,
        part: u32,
    },
    /// The set on the cell of the right part has no value.
    NoValue {
        right_part: u32,
        attr: AttrId,
    },
    /// The next name of the object would pass 16,777,216.
    TooLarge {
        object: ObjectId,
    },
    /// Two atoms would meet in the cell of the part with this name after the step.
    Clash {
        object: ObjectId,
        name: u32,
        attr: AttrId,
        first: Atom,
        second: Atom,
    },
}

impl Refusal {
    /// A copy. The texts of a clash take memory of their own.
    pub fn copy(&self, alloc: Global) -> Result<Refusal, OutOfMemory>
        ensures { IfOk result (λ copy. copy ≡ self.now) }
    {
        Ok(match self {
            Refusal::Identification {
                object,
                first,
                second,
            } => Refusal::Identification {
                object: *object,
                first: *first,
                second: *second,
            },
            Refusal::Dangling { arrow, part } => Refusal::Dangling {
                arrow: *arrow,
                part: *part,
            },
            Refusal::NoValue { right_part, attr } => Refusal::NoValue {
                right_part: *right_part,
                attr: *attr,
            },
            Refusal::TooLarge { object } => Refusal::TooLarge { object: *object },
            Refusal::Clash {
                object,
                name,
                attr,
                first,
                second,
            } => Refusal::Clash {
                object: *object,
                name: *name,
                attr: *attr,
                first: first.copy(alloc)?,
                second: second.copy(alloc)?,
            },
        })
    }
}
