//! The names that come, with their rows and cells.

ghost use Rattle.std.specs.Prelude.{◌≡◌, ◌<◌, ◌≤◌, ◌+◌, ℕ, All, IfOk, None, Some, [], length, map, slice_get, slice_index, slice_index_or};
ghost use Rattle.rw_schema.specs.declared.signature.ArrowEnds.{ArrowEnds};
ghost use Rattle.rw_schema.specs.declared.signature.AttrEnds.{AttrEnds};
ghost use Rattle.rw_schema.specs.Presentation.{ends_of_arrow, ends_of_attribute};
ghost use Rattle.rw_schema.specs.RowLists.{list_at};
ghost use Rattle.rw_columns.specs.inner.Filled.{AreAll};
ghost use Rattle.rw_redex.specs.NewParts.{new_parts as new_parts_of};
ghost use Rattle.rw_redex.specs.Obstructions.{most_names};
ghost use Rattle.rw_redex.specs.RuleParts.{HasObject};
ghost use Rattle.rw_glue.specs.inner.Changed.{AreNewNames, AreNewRows, AreNewCells, CanFollow, IsNextAfter, IsPlacedAt};

use crate::cells::copy_of;
use crate::lists::{add_list, list_of, numbers_at};
use rw_redex::{new_parts, next_after};
use rw_rule::Rule;
use rw_schema::{ArrowDef, ArrowId, Atom, AttrDef, AttrId, ObjectId, OutOfMemory, Rows};
use std::alloc::Global;

/// Of each object the names of its new parts.
pub fn new_name_lists(
    alloc: Global,
    rule: &Rule,
    placed: &[Vec<u32>],
) -> Result<Vec<Vec<u32>>, OutOfMemory>
    requires few { length placed.now ≤ 64 }
    requires placed { (object : ℕ) → object < length placed.now → IsPlacedAt rule.now (map (λ list. list.items) placed.now) object }
    ensures { IfOk result (λ lists. AreAll [] (AreNewNames rule.now (map (λ list. list.items) placed.now)) (length placed.now) (map (λ list. list.items) lists.items)) }
{
    let mut lists = Vec::new(alloc);
    for place in 0..placed.len() {
        add_list(
            &mut lists,
            new_names(alloc, rule, ObjectId(place as u16), list_of(placed, place))?,
        )?;
    }
    Ok(lists)
}

/// The names of the new parts of the object.
fn new_names(
    alloc: Global,
    rule: &Rule,
    object: ObjectId,
    placed: &[u32],
) -> Result<Vec<u32>, OutOfMemory>
    requires object { HasObject rule.now object.0 }
    requires placed { All (λ part. part < length placed.now) (new_parts_of rule.now object.0) }
    ensures { IfOk result (λ names. names.items ≡ map (slice_index placed.now) (new_parts_of rule.now object.0)) }
{
    let parts = new_parts(alloc, rule, object)?;
    numbers_at(alloc, placed, parts.as_slice())
}

/// Of each object the next name afterwards.
pub fn next_list(alloc: Global, rule: &Rule, next: &[u32]) -> Result<Vec<u32>, OutOfMemory>
    requires few { length next.now ≤ 64 }
    requires objects { (object : ℕ) → object < length next.now
        → HasObject rule.now object × (slice_index next.now object + length (new_parts_of rule.now object) ≤ most_names) }
    ensures { IfOk result (λ list. AreAll 0 (IsNextAfter rule.now next.now) (length next.now) list.items) }
{
    let mut list = Vec::new(alloc);
    for (place, name) in next.iter().enumerate() {
        list.push(next_after(rule, ObjectId(place as u16), *name))?;
    }
    Ok(list)
}

/// Of each arrow where it leads from the new parts of its source.
pub fn new_row_lists(
    alloc: Global,
    arrows: &[ArrowDef],
    rule: &Rule,
    placed: &[Vec<u32>],
) -> Result<Vec<Vec<u32>>, OutOfMemory>
    requires few { length arrows.now ≤ 256 }
    requires arrows { (a : ℕ) (ends : ArrowEnds) → slice_get (map ends_of_arrow arrows.now) a ≡ Some ends → CanFollow rule.now (map (λ list. list.items) placed.now) a ends }
    ensures { IfOk result (λ lists. AreAll [] (AreNewRows (map ends_of_arrow arrows.now) rule.now (map (λ list. list.items) placed.now)) (length arrows.now) (map (λ list. list.items) lists.items)) }
{
    let mut lists = Vec::new(alloc);
    for (place, arrow) in arrows.iter().enumerate() {
        let row = new_row(
            alloc,
            rule,
            arrow.source,
            rule.right().row(ArrowId(place as u16)),
            list_of(placed, arrow.target.0 as usize),
        )?;
        add_list(&mut lists, row)?;
    }
    Ok(lists)
}

/// The names of the values that the row has at the new parts of its source.
fn new_row(
    alloc: Global,
    rule: &Rule,
    source: ObjectId,
    row: &[u32],
    placed: &[u32],
) -> Result<Vec<u32>, OutOfMemory>
    requires source { HasObject rule.now source.0 }
    requires parts { All (λ part. part < length row.now) (new_parts_of rule.now source.0) }
    requires values { All (λ part. part < length placed.now) row.now }
    ensures { IfOk result (λ list. list.items ≡ map (slice_index placed.now) (map (slice_index row.now) (new_parts_of rule.now source.0))) }
{
    let parts = new_parts(alloc, rule, source)?;
    let values = numbers_at(alloc, row, parts.as_slice())?;
    numbers_at(alloc, placed, values.as_slice())
}

/// Of each attribute the cells of the new parts of its object.
pub fn new_cell_lists(
    alloc: Global,
    attributes: &[AttrDef],
    rule: &Rule,
    right: &Rows,
) -> Result<Vec<Vec<Option<Atom>>>, OutOfMemory>
    requires few { length attributes.now ≤ 256 }
    requires cells { length attributes.now ≤ length right.now.cells }
    requires holders { (c : ℕ) (ends : AttrEnds) → slice_get (map ends_of_attribute attributes.now) c ≡ Some ends
        → HasObject rule.now ends.object.0 × All (λ part. part < length (list_at right.now.cells c)) (new_parts_of rule.now ends.object.0) }
    ensures { IfOk result (λ lists. AreAll [] (AreNewCells (map ends_of_attribute attributes.now) rule.now right.now.cells) (length attributes.now) (map (λ list. list.items) lists.items)) }
{
    let mut lists = Vec::new(alloc);
    for (place, attribute) in attributes.iter().enumerate() {
        let cells = new_cells(
            alloc,
            rule,
            attribute.object,
            right.cells(AttrId(place as u16)),
        )?;
        add_list(&mut lists, cells)?;
    }
    Ok(lists)
}

/// The cells of the new parts of the object.
fn new_cells(
    alloc: Global,
    rule: &Rule,
    object: ObjectId,
    cells: &[Option<Atom>],
) -> Result<Vec<Option<Atom>>, OutOfMemory>
    requires object { HasObject rule.now object.0 }
    requires parts { All (λ part. part < length cells.now) (new_parts_of rule.now object.0) }
    ensures { IfOk result (λ list. list.items ≡ map (λ part. slice_index_or cells.now part None) (new_parts_of rule.now object.0)) }
{
    let parts = new_parts(alloc, rule, object)?;
    cells_at(alloc, cells, parts.as_slice())
}

/// The cells at the places, in memory of their own.
fn cells_at(
    alloc: Global,
    cells: &[Option<Atom>],
    places: &[u32],
) -> Result<Vec<Option<Atom>>, OutOfMemory>
    requires { All (λ place. place < length cells.now) places.now }
    ensures { IfOk result (λ list. list.items ≡ map (λ place. slice_index_or cells.now place None) places.now) }
{
    let mut list = Vec::new(alloc);
    for place in places {
        list.push(copy_of(alloc, cells[*place as usize].as_ref())?)?;
    }
    Ok(list)
}
