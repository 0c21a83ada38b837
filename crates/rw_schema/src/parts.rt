//! What a schema is built from.

ghost use Rattle.std.specs.Prelude.{◌≡◌, IfOk};

use crate::{Kind, ObjectId, OutOfMemory, Path, Text};
use std::alloc::Global;

/// An arrow: a function from the parts of its source to those of its target.
#[derive(Drop)]
pub struct ArrowDef {
    pub name: Text,
    pub source: ObjectId,
    pub target: ObjectId,
}

/// An attribute: each part of its object has a cell, with an atom of the kind.
#[derive(Drop)]
pub struct AttrDef {
    pub name: Text,
    pub object: ObjectId,
    pub kind: Kind,
}

/// An equation: from each part of the object both paths lead to one part.
#[derive(Drop)]
pub struct Equation {
    pub object: ObjectId,
    pub left: Path,
    pub right: Path,
}

impl Equation {
    /// A copy, in memory of its own.
    pub fn copy(&self, alloc: Global) -> Result<Equation, OutOfMemory>
        ensures { IfOk result (λ copy. copy ≡ self.now) }
    {
        let left = self.left.copy(alloc)?;
        let right = self.right.copy(alloc)?;
        Ok(Equation {
            object: self.object,
            left,
            right,
        })
    }
}

/// The lists that a schema is built from. A number in them is a place in these lists, from 0.
#[derive(Drop)]
pub struct SchemaParts {
    pub objects: Vec<Text>,
    pub arrows: Vec<ArrowDef>,
    pub attributes: Vec<AttrDef>,
    pub equations: Vec<Equation>,
}
