//! The lengths of kept lists, and the numbers of parts.

ghost use Rattle.std.specs.Prelude.{◌≡◌, ◌≤◌, IfOk, length, map};
ghost use Rattle.rw_app.specs.RunTexts.{sizes_in};

use rw_pattern::Tuple;
use rw_schema::{ObjectId, OutOfMemory, Rows};
use std::alloc::Global;

/// The lengths of the lists.
pub(crate) fn lengths_of(alloc: Global, lists: &[Vec<Tuple>]) -> Result<Vec<u64>, OutOfMemory>
    ensures { IfOk result (λ lengths. lengths.items ≡ map (λ list. length list.items) lists.now) }
{
    let mut lengths = Vec::new(alloc);
    for list in lists {
        lengths.push(list.len() as u64)?;
    }
    Ok(lengths)
}

/// Of each object the number of its parts.
pub(crate) fn sizes_of(alloc: Global, rows: &Rows) -> Result<Vec<u64>, OutOfMemory>
    requires { length rows.now.names ≤ 64 }
    ensures { IfOk result (λ sizes. sizes.items ≡ sizes_in rows.now) }
{
    let mut sizes = Vec::new(alloc);
    for object in 0..rows.name_lists() {
        let names = rows.names(ObjectId(object as u16));
        sizes.push(names.len() as u64)?;
    }
    Ok(sizes)
}
