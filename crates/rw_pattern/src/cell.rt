//! What a pattern wants of cells.

ghost use Rattle.std.specs.Prelude.{◌≡◌, IfOk};

use rw_schema::{Atom, AttrId, OutOfMemory};
use std::alloc::Global;

/// What an entry wants its cell to hold.
#[derive(Drop)]
pub enum Want {
    /// This atom.
    Const(Atom),
    /// The value of a variable: the same atom wherever the variable stands.
    Var(u32),
}

impl Want {
    /// A copy, in memory of its own.
    pub fn copy(&self, alloc: Global) -> Result<Want, OutOfMemory>
        ensures { IfOk result (λ copy. copy ≡ self.now) }
    {
        match self {
            Want::Const(atom) => Ok(Want::Const(atom.copy(alloc)?)),
            Want::Var(variable) => Ok(Want::Var(*variable)),
        }
    }
}

/// An entry on the cell of a part: what the cell is to hold.
#[derive(Drop)]
pub struct PatternCell {
    pub attr: AttrId,
    pub part: u32,
    pub want: Want,
}

impl PatternCell {
    /// A copy, in memory of its own.
    pub fn copy(&self, alloc: Global) -> Result<PatternCell, OutOfMemory>
        ensures { IfOk result (λ copy. copy ≡ self.now) }
    {
        let want = self.want.copy(alloc)?;
        Ok(PatternCell {
            attr: self.attr,
            part: self.part,
            want,
        })
    }
}
