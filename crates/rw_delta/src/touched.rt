//! The names beside which a change writes something anew.

ghost use Rattle.std.specs.Prelude.{◌≡◌, ◌==◌, ◌<◌, ◌++◌, OnOk, IfOk, [], cond, length, map, slice_index};
ghost use Rattle.rw_schema.specs.RowLists.{list_at};
ghost use Rattle.rw_columns.specs.Changes.{entry_names};
ghost use Rattle.rw_columns.specs.inner.Filled.{AreAll};
ghost use Rattle.rw_delta.specs.inner.Gathered.{AreTouched, IsGathered};

use crate::ordered::put_in_order;
use rw_schema::{ArrowEnds, Atom, AttrEnds, ObjectId, OutOfMemory};
use std::alloc::Global;

/// Of each object the names that have an entry in the rows of one of its arrows or in the cells of one of its attributes.
pub fn touched_lists(
    alloc: Global,
    objects: usize,
    arrows: &[ArrowEnds],
    rows: &[Vec<(u32, u32)>],
    attributes: &[AttrEnds],
    cells: &[Vec<(u32, Option<Atom>)>],
) -> Result<Vec<Vec<u32>>, OutOfMemory>
    requires rows { length rows.now ≡ length arrows.now }
    requires cells { length cells.now ≡ length attributes.now }
    ensures { IfOk result (λ lists. AreAll [] (AreTouched (map (λ each. each.source.0) arrows.now) (map (λ list. list.items) rows.now) (map (λ each. each.object.0) attributes.now) (map (λ list. list.items) cells.now)) objects (map (λ list. list.items) lists.items)) }
{
    let mut lists = Vec::new(alloc);
    for object in 0..objects {
        lists.push(touched_names(alloc, object, arrows, rows, attributes, cells)?)?;
    }
    Ok(lists)
}

/// The names of one object.
fn touched_names(
    alloc: Global,
    object: usize,
    arrows: &[ArrowEnds],
    rows: &[Vec<(u32, u32)>],
    attributes: &[AttrEnds],
    cells: &[Vec<(u32, Option<Atom>)>],
) -> Result<Vec<u32>, OutOfMemory>
    requires rows { length rows.now ≡ length arrows.now }
    requires cells { length cells.now ≡ length attributes.now }
    ensures { IfOk result (λ names. AreTouched (map (λ each. each.source.0) arrows.now) (map (λ list. list.items) rows.now) (map (λ each. each.object.0) attributes.now) (map (λ list. list.items) cells.now) object names.items) }
{
    let mut names = Vec::new(alloc);
    gather_rows(&mut names, object, arrows, rows)?;
    gather_cells(&mut names, object, attributes, cells)?;
    put_in_order(&mut names);
    Ok(names)
}

/// Appends the names that have an entry in the rows of an arrow of the object.
fn gather_rows(
    names: &mut Vec<u32>,
    object: usize,
    arrows: &[ArrowEnds],
    rows: &[Vec<(u32, u32)>],
) -> Result<(), OutOfMemory>
    requires { length rows.now ≡ length arrows.now }
    ensures { OnOk result (IsGathered (map (λ each. each.source.0) arrows.now) (map (λ list. list.items) rows.now) object (length arrows.now) names.old.items names.new.items) }
{
    for place in 0..arrows.len() {
        append_if(
            names,
            source_at(arrows, place),
            object,
            rows_at(rows, place),
        )?;
    }
    Ok(())
}

/// Appends the names that have an entry in the cells of an attribute of the object.
fn gather_cells(
    names: &mut Vec<u32>,
    object: usize,
    attributes: &[AttrEnds],
    cells: &[Vec<(u32, Option<Atom>)>],
) -> Result<(), OutOfMemory>
    requires { length cells.now ≡ length attributes.now }
    ensures { OnOk result (IsGathered (map (λ each. each.object.0) attributes.now) (map (λ list. list.items) cells.now) object (length attributes.now) names.old.items names.new.items) }
{
    for place in 0..attributes.len() {
        append_if(
            names,
            holder_at(attributes, place),
            object,
            cells_at(cells, place),
        )?;
    }
    Ok(())
}

/// Appends the names of the entries, if their owner is the object.
fn append_if<A>(
    names: &mut Vec<u32>,
    owner: ObjectId,
    object: usize,
    entries: &[(u32, A)],
) -> Result<(), OutOfMemory>
    ensures { OnOk result (names.new.items ≡ names.old.items ++ cond (owner.0 == object) (entry_names entries.now) []) }
{
    if owner.0 as usize == object {
        append_names(names, entries)
    } else {
        Ok(())
    }
}

/// Appends the names of the entries.
fn append_names<A>(names: &mut Vec<u32>, entries: &[(u32, A)]) -> Result<(), OutOfMemory>
    ensures { OnOk result (names.new.items ≡ names.old.items ++ entry_names entries.now) }
{
    for entry in entries {
        names.push(entry.0)?;
    }
    Ok(())
}

/// The object that the arrow at the place leaves.
fn source_at(arrows: &[ArrowEnds], place: usize) -> ObjectId
    requires { place < length arrows.now }
    ensures { result.0 ≡ slice_index (map (λ each. each.source.0) arrows.now) place }
{
    arrows[place].source
}

/// The object of the attribute at the place.
fn holder_at(attributes: &[AttrEnds], place: usize) -> ObjectId
    requires { place < length attributes.now }
    ensures { result.0 ≡ slice_index (map (λ each. each.object.0) attributes.now) place }
{
    attributes[place].object
}

/// The rows at the place.
fn rows_at(rows: &[Vec<(u32, u32)>], place: usize) -> &[(u32, u32)]
    requires { place < length rows.now }
    ensures { result.now ≡ list_at (map (λ list. list.items) rows.now) place }
{
    rows[place].as_slice()
}

/// The cells at the place.
fn cells_at(cells: &[Vec<(u32, Option<Atom>)>], place: usize) -> &[(u32, Option<Atom>)]
    requires { place < length cells.now }
    ensures { result.now ≡ list_at (map (λ list. list.items) cells.now) place }
{
    cells[place].as_slice()
}
