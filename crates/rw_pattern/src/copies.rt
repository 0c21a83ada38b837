//! Copies of a pattern's lists.

ghost use Rattle.std.specs.Prelude.{◌≡◌, IfOk, map};

use crate::PatternCell;
use rw_schema::OutOfMemory;
use std::alloc::Global;

/// A copy of each entry.
pub fn copy_entries(alloc: Global, entries: &[PatternCell]) -> Result<Vec<PatternCell>, OutOfMemory>
    ensures { IfOk result (λ copies. copies.items ≡ entries.now) }
{
    let mut copies = Vec::new(alloc);
    for entry in entries {
        copies.push(entry.copy(alloc)?)?;
    }
    Ok(copies)
}
