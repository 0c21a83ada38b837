//! Lists of cells.

ghost use Rattle.std.specs.Prelude.{◌≡◌, ◌↔◌, IfOk, IsTrue, map};

use crate::{Atom, OutOfMemory};
use std::alloc::Global;

/// A copy of a cell.
fn copy_cell(alloc: Global, cell: &Option<Atom>) -> Result<Option<Atom>, OutOfMemory>
    ensures { IfOk result (λ copy. copy ≡ cell.now) }
{
    match cell {
        Some(atom) => Ok(Some(atom.copy(alloc)?)),
        None => Ok(None),
    }
}

/// A copy of each cell.
pub fn copy_cells(alloc: Global, cells: &[Option<Atom>]) -> Result<Vec<Option<Atom>>, OutOfMemory>
    ensures { IfOk result (λ copies. copies.items ≡ cells.now) }
{
    let mut copies = Vec::new(alloc);
    for cell in cells {
        copies.push(copy_cell(alloc, cell)?)?;
    }
    Ok(copies)
}

/// A copy of each list of cells.
pub fn copy_cell_lists(
    alloc: Global,
    lists: &[Vec<Option<Atom>>],
) -> Result<Vec<Vec<Option<Atom>>>, OutOfMemory>
    ensures { IfOk result (λ copies. map (λ list. list.items) copies.items ≡ map (λ list. list.items) lists.now) }
{
    let mut copies = Vec::new(alloc);
    for list in lists {
        copies.push(copy_cells(alloc, list.as_slice())?)?;
    }
    Ok(copies)
}

/// Whether the lists of cells of both are the same.
pub fn are_same_cell_lists(left: &[Vec<Option<Atom>>], right: &[Vec<Option<Atom>>]) -> bool
    ensures { IsTrue result ↔ (map (λ list. list.items) left.now ≡ map (λ list. list.items) right.now) }
{
    left == right
}
