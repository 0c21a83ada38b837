//! What tells of a clash.

ghost use Rattle.std.specs.Prelude.{◌≡◌, ◌<◌, IfOk, IsSome, length, map};
ghost use Rattle.rw_schema.specs.RowLists.{list_at};
ghost use Rattle.rw_classes.specs.Clashes.{both_cells};
ghost use Rattle.rw_classes.specs.Merging.{cell_at};
ghost use Rattle.rw_glue.specs.inner.Clashing.{IsClashEnd};

use crate::GlueEnd;
use crate::cell_changes::atom_at;
use crate::lists::list_of;
use rw_classes::ClashAt;
use rw_schema::{OutOfMemory, Rows};
use std::alloc::Global;

/// What tells of the clash, where the classes of each object have these names.
pub fn clash_end(
    alloc: Global,
    clash: ClashAt,
    left: &Rows,
    right: &Rows,
    names: &[Vec<u32>],
) -> Result<GlueEnd, OutOfMemory>
    requires left { clash.attr.0 < length left.now.cells }
    requires right { clash.attr.0 < length right.now.cells }
    requires object { clash.object.0 < length names.now }
    requires class { clash.difference.class < length (list_at (map (λ list. list.items) names.now) clash.object.0) }
    requires first { IsSome (cell_at (both_cells left.now right.now clash.attr.0) clash.difference.first) }
    requires second { IsSome (cell_at (both_cells left.now right.now clash.attr.0) clash.difference.second) }
    ensures { IfOk result (IsClashEnd clash (cell_at (both_cells left.now right.now clash.attr.0)) (list_at (map (λ list. list.items) names.now) clash.object.0)) }
{
    let left_cells = left.cells(clash.attr);
    let right_cells = right.cells(clash.attr);
    let first = atom_at(left_cells, right_cells, clash.difference.first).unwrap();
    let second = atom_at(left_cells, right_cells, clash.difference.second).unwrap();
    Ok(GlueEnd::Clash {
        object: clash.object,
        name: list_of(names, clash.object.0 as usize)[clash.difference.class as usize],
        attr: clash.attr,
        first: first.copy(alloc)?,
        second: second.copy(alloc)?,
    })
}
