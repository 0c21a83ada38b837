//! Room in columns.

ghost use Rattle.std.specs.Prelude.{◌≡◌, ◌≢◌, ◌<◌, ◌≤◌, ℕ, Some, length, map, slice_get, slice_index, OnOk};
ghost use Rattle.std.specs.Vec.{vec_capacity};
ghost use Rattle.rw_schema.specs.declared.signature.ArrowEnds.{ArrowEnds};
ghost use Rattle.rw_schema.specs.declared.signature.AttrEnds.{AttrEnds};
ghost use Rattle.rw_columns.specs.Columned.{column_at};
ghost use Rattle.rw_columns.specs.inner.Room.{AreKept, IsKept, IsRoomy};

use rw_column::Column;
use rw_schema::{ArrowEnds, Atom, AttrEnds, OutOfMemory};
use std::alloc::AllocError;

/// Makes room in all columns and cells for the names below the next names.
pub fn parts_room(
    names: &mut Vec<Column>,
    arrows: &mut Vec<Column>,
    cells: &mut Vec<Vec<Option<Atom>>>,
    arrow_ends: &[ArrowEnds],
    attribute_ends: &[AttrEnds],
    next: &[u32],
) -> Result<(), OutOfMemory>
    requires objects { length next.now ≡ length names.old.items }
    requires arrows { length arrow_ends.now ≡ length arrows.old.items }
    requires attributes { length attribute_ends.now ≡ length cells.old.items }
    requires sources { (a : ℕ) (arrow : ArrowEnds) → slice_get arrow_ends.now a ≡ Some arrow → arrow.source.0 < length next.now }
    requires targets { (a : ℕ) (arrow : ArrowEnds) → slice_get arrow_ends.now a ≡ Some arrow → arrow.target.0 < length next.now }
    requires holders { (c : ℕ) (attribute : AttrEnds) → slice_get attribute_ends.now c ≡ Some attribute → attribute.object.0 < length next.now }
    ensures names { AreKept names.old.items names.new.items }
    ensures arrows { AreKept arrows.old.items arrows.new.items }
    ensures cells { map (λ list. list.items) cells.new.items ≡ map (λ list. list.items) cells.old.items }
    ensures names_room { OnOk result ((object : ℕ) → object < length names.new.items → IsRoomy (slice_index next.now object) 0 (column_at names.new.items object)) }
    ensures arrows_room { OnOk result ((a : ℕ) (arrow : ArrowEnds) → slice_get arrow_ends.now a ≡ Some arrow → IsRoomy (slice_index next.now arrow.source.0) (slice_index next.now arrow.target.0) (column_at arrows.new.items a)) }
    ensures cells_room { OnOk result ((c : ℕ) (attribute : AttrEnds) → slice_get attribute_ends.now c ≡ Some attribute → slice_index next.now attribute.object.0 ≤ slice_index (map (λ list. vec_capacity list) cells.new.items) c) }
{
    names_room(names, next)?;
    arrows_room(arrows, arrow_ends, next)?;
    cells_room(cells, attribute_ends, next)?;
    Ok(())
}

/// Makes room in the column of each object's names for the names below its next name.
fn names_room(columns: &mut Vec<Column>, next: &[u32]) -> Result<(), AllocError>
    requires { length next.now ≡ length columns.old.items }
    ensures kept { AreKept columns.old.items columns.new.items }
    ensures room { OnOk result ((object : ℕ) → object < length columns.new.items → IsRoomy (slice_index next.now object) 0 (column_at columns.new.items object)) }
{
    for place in 0..columns.len() {
        column_room(columns, place, next[place], 0)?;
    }
    Ok(())
}

/// Makes room in the column of each arrow for the names below the next names of its ends.
fn arrows_room(
    columns: &mut Vec<Column>,
    ends: &[ArrowEnds],
    next: &[u32],
) -> Result<(), AllocError>
    requires count { length ends.now ≡ length columns.old.items }
    requires sources { (a : ℕ) (arrow : ArrowEnds) → slice_get ends.now a ≡ Some arrow → arrow.source.0 < length next.now }
    requires targets { (a : ℕ) (arrow : ArrowEnds) → slice_get ends.now a ≡ Some arrow → arrow.target.0 < length next.now }
    ensures kept { AreKept columns.old.items columns.new.items }
    ensures room { OnOk result ((a : ℕ) (arrow : ArrowEnds) → slice_get ends.now a ≡ Some arrow → IsRoomy (slice_index next.now arrow.source.0) (slice_index next.now arrow.target.0) (column_at columns.new.items a)) }
{
    for place in 0..columns.len() {
        let arrow = ends[place];
        let sources = next[arrow.source.0 as usize];
        let targets = next[arrow.target.0 as usize];
        column_room(columns, place, sources, targets)?;
    }
    Ok(())
}

/// Makes room in the cells of each attribute for the names below the next name of its object.
fn cells_room(
    lists: &mut Vec<Vec<Option<Atom>>>,
    ends: &[AttrEnds],
    next: &[u32],
) -> Result<(), AllocError>
    requires count { length ends.now ≡ length lists.old.items }
    requires objects { (c : ℕ) (attribute : AttrEnds) → slice_get ends.now c ≡ Some attribute → attribute.object.0 < length next.now }
    ensures kept { map (λ list. list.items) lists.new.items ≡ map (λ list. list.items) lists.old.items }
    ensures room { OnOk result ((c : ℕ) (attribute : AttrEnds) → slice_get ends.now c ≡ Some attribute → slice_index next.now attribute.object.0 ≤ slice_index (map (λ list. vec_capacity list) lists.new.items) c) }
{
    for place in 0..lists.len() {
        let object = ends[place].object;
        list_room(lists, place, next[object.0 as usize])?;
    }
    Ok(())
}

/// Makes room in the column at the place for so many places and numbers in all.
fn column_room(
    columns: &mut Vec<Column>,
    place: usize,
    places: u32,
    targets: u32,
) -> Result<(), AllocError>
    requires { place < length columns.old.items }
    ensures kept { AreKept columns.old.items columns.new.items }
    ensures others { (other : ℕ) → other ≢ place → column_at columns.new.items other ≡ column_at columns.old.items other }
    ensures room { OnOk result (IsRoomy places targets (column_at columns.new.items place)) }
{
    raise_room(&mut columns[place], places, targets)
}

/// Makes room in the column for so many places and numbers in all.
fn raise_room(column: &mut Column, places: u32, targets: u32) -> Result<(), AllocError>
    ensures kept { IsKept column.old column.new }
    ensures room { OnOk result (IsRoomy places targets column.new) }
{
    let more_places = places.saturating_sub(column.places());
    let more_targets = targets.saturating_sub(column.targets());
    column.make_room(more_places, more_targets)
}

/// Makes room in the list at the place for so many cells in all.
fn list_room(lists: &mut Vec<Vec<Option<Atom>>>, place: usize, cells: u32) -> Result<(), AllocError>
    requires { place < length lists.old.items }
    ensures kept { map (λ list. list.items) lists.new.items ≡ map (λ list. list.items) lists.old.items }
    ensures others { (other : ℕ) → other ≢ place → slice_index (map (λ list. vec_capacity list) lists.new.items) other ≡ slice_index (map (λ list. vec_capacity list) lists.old.items) other }
    ensures room { OnOk result (cells ≤ slice_index (map (λ list. vec_capacity list) lists.new.items) place) }
{
    raise_cells(&mut lists[place], cells)
}

/// Makes room in the list for so many cells in all.
fn raise_cells(list: &mut Vec<Option<Atom>>, cells: u32) -> Result<(), AllocError>
    ensures kept { list.new.items ≡ list.old.items }
    ensures room { OnOk result (cells ≤ vec_capacity list.new) }
{
    let more = (cells as usize).saturating_sub(list.len());
    list.reserve(more)
}
