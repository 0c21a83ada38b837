//! Paths of arrows.

ghost use Rattle.std.specs.Prelude.{◌≡◌, IfOk};

use crate::{ArrowId, OutOfMemory};
use std::alloc::Global;
use std::marker::Model;

/// A path: its arrows, the first to be followed first. The empty path is the identity. Contracts see the
/// list of the arrows.
#[derive(Drop)]
pub struct Path {
    arrows: Vec<ArrowId>,
}

impl Model for Path {
    ghost use Rattle.std.specs.Prelude.{List};
    ghost use Rattle.rw_schema.specs.declared.ids.ArrowId.{ArrowId};

    ghost Value = { List ArrowId };

    ghost view = { λ path. path.arrows.items };
}

impl Path {
    pub fn of(arrows: Vec<ArrowId>) -> Path
        ensures { result ≡ arrows.items }
    {
        Path { arrows }
    }

    pub fn arrows(&self) -> &[ArrowId]
        ensures { result.now ≡ self.now }
    {
        self.arrows.as_slice()
    }

    /// A copy, in memory of its own.
    pub fn copy(&self, alloc: Global) -> Result<Path, OutOfMemory>
        ensures { IfOk result (λ copy. copy ≡ self.now) }
    {
        let arrows = self.arrows.as_slice().to_vec(alloc)?;
        Ok(Path { arrows })
    }
}
