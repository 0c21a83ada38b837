//! Columns filled from the lists of an instance.

ghost use Rattle.std.specs.Prelude.{[], ◌≡◌, ◌<◌, All, IfOk, None, Option, true, length, map, replicate, slice_index, slice_set, OnOk};
ghost use Rattle.rw_schema.specs.Presentation.{signature_of};
ghost use Rattle.rw_table.specs.TableFaults.{are_names, table_fault};
ghost use Rattle.rw_columns.specs.Columned.{no_column};
ghost use Rattle.rw_columns.specs.inner.Filled.{IsFilledColumn, IsNamesColumn, IsArrowColumn, AreFilledCells, AreCellsOf, AreAll};

use rw_column::Column;
use rw_schema::{ArrowId, Atom, AttrId, ObjectId, OutOfMemory, Rows, Schema};
use std::alloc::Global;

/// The column of each object's names.
pub fn names_columns(
    alloc: Global,
    schema: &Schema,
    rows: &Rows,
) -> Result<Vec<Column>, OutOfMemory>
    requires { table_fault (signature_of schema.now) rows.now ≡ None }
    ensures { IfOk result (λ columns. AreAll no_column (IsNamesColumn rows.now) (length schema.now.objects) columns.items) }
{
    let mut columns = Vec::new(alloc);
    for place in 0..schema.objects() {
        columns.push(names_column(alloc, schema, rows, ObjectId(place as u16))?)?;
    }
    Ok(columns)
}

/// The column of the object's names.
fn names_column(
    alloc: Global,
    schema: &Schema,
    rows: &Rows,
    object: ObjectId,
) -> Result<Column, OutOfMemory>
    requires known { object.0 < length schema.now.objects }
    requires sound { table_fault (signature_of schema.now) rows.now ≡ None }
    ensures { IfOk result (IsNamesColumn rows.now object.0) }
{
    column_of_names(alloc, rows.next(object), rows.names(object))
}

/// The column of each arrow.
pub fn arrow_columns(
    alloc: Global,
    schema: &Schema,
    rows: &Rows,
) -> Result<Vec<Column>, OutOfMemory>
    requires { table_fault (signature_of schema.now) rows.now ≡ None }
    ensures { IfOk result (λ columns. AreAll no_column (IsArrowColumn (signature_of schema.now) rows.now) (length schema.now.arrows) columns.items) }
{
    let mut columns = Vec::new(alloc);
    for place in 0..schema.arrows() {
        columns.push(arrow_column(alloc, schema, rows, ArrowId(place as u16))?)?;
    }
    Ok(columns)
}

/// The column of the arrow.
fn arrow_column(
    alloc: Global,
    schema: &Schema,
    rows: &Rows,
    arrow: ArrowId,
) -> Result<Column, OutOfMemory>
    requires known { arrow.0 < length schema.now.arrows }
    requires sound { table_fault (signature_of schema.now) rows.now ≡ None }
    ensures { IfOk result (IsArrowColumn (signature_of schema.now) rows.now arrow.0) }
{
    let ends = schema.arrow(arrow);
    let sources = rows.next(ends.source);
    let targets = rows.next(ends.target);
    column_of_images(
        alloc,
        sources,
        targets,
        rows.names(ends.source),
        rows.row(arrow),
    )
}

/// The cells of each attribute.
pub fn cell_lists(
    alloc: Global,
    schema: &Schema,
    rows: &Rows,
) -> Result<Vec<Vec<Option<Atom>>>, OutOfMemory>
    requires { table_fault (signature_of schema.now) rows.now ≡ None }
    ensures { IfOk result (λ lists. AreAll [] (AreCellsOf (signature_of schema.now) rows.now) (length schema.now.attributes) (map (λ list. list.items) lists.items)) }
{
    let mut lists = Vec::new(alloc);
    for place in 0..schema.attributes() {
        lists.push(cells_of(alloc, schema, rows, AttrId(place as u16))?)?;
    }
    Ok(lists)
}

/// The cells of the attribute.
fn cells_of(
    alloc: Global,
    schema: &Schema,
    rows: &Rows,
    attribute: AttrId,
) -> Result<Vec<Option<Atom>>, OutOfMemory>
    requires known { attribute.0 < length schema.now.attributes }
    requires sound { table_fault (signature_of schema.now) rows.now ≡ None }
    ensures { IfOk result (λ list. AreCellsOf (signature_of schema.now) rows.now attribute.0 list.items) }
{
    let object = schema.attr(attribute).object;
    cells_by_name(
        alloc,
        rows.next(object),
        rows.names(object),
        rows.cells(attribute),
    )
}

/// The column that has 0 at each name.
fn column_of_names(alloc: Global, places: u32, names: &[u32]) -> Result<Column, OutOfMemory>
    requires { are_names places names.now ≡ true }
    ensures { IfOk result (IsFilledColumn places 1 names.now (λ k. 0)) }
{
    let mut live = Column::new(alloc, places, 1)?;
    for name in names {
        live.link(*name, 0);
    }
    Ok(live)
}

/// The column that has at each name the image beside it.
fn column_of_images(
    alloc: Global,
    sources: u32,
    targets: u32,
    names: &[u32],
    images: &[u32],
) -> Result<Column, OutOfMemory>
    requires names { are_names sources names.now ≡ true }
    requires beside { length images.now ≡ length names.now }
    requires within { All (λ image. image < targets) images.now }
    ensures { IfOk result (IsFilledColumn sources targets names.now (slice_index images.now)) }
{
    let mut column = Column::new(alloc, sources, targets)?;
    for (place, name) in names.iter().enumerate() {
        column.link(*name, images[place]);
    }
    Ok(column)
}

/// The list that has at each name the cell beside it, and is blank elsewhere.
fn cells_by_name(
    alloc: Global,
    places: u32,
    names: &[u32],
    cells: &[Option<Atom>],
) -> Result<Vec<Option<Atom>>, OutOfMemory>
    requires names { are_names places names.now ≡ true }
    requires beside { length cells.now ≡ length names.now }
    ensures { IfOk result (λ list. AreFilledCells places names.now cells.now list.items) }
{
    let mut list = blank_cells(alloc, places)?;
    for (place, name) in names.iter().enumerate() {
        put_cell(alloc, &mut list, *name, &cells[place])?;
    }
    Ok(list)
}

/// Puts a copy of the cell at the place.
fn put_cell(
    alloc: Global,
    list: &mut Vec<Option<Atom>>,
    place: u32,
    cell: &Option<Atom>,
) -> Result<(), OutOfMemory>
    requires { place < length list.old.items }
    ensures { OnOk result (list.new.items ≡ slice_set list.old.items place cell.now) }
{
    let copy = copy_cell(alloc, cell)?;
    list[place as usize] = copy;
    Ok(())
}

/// A copy of the cell.
pub fn copy_cell(alloc: Global, cell: &Option<Atom>) -> Result<Option<Atom>, OutOfMemory>
    ensures { IfOk result (λ copy. copy ≡ cell.now) }
{
    match cell {
        Some(atom) => Ok(Some(atom.copy(alloc)?)),
        None => Ok(None),
    }
}

/// So many blank cells.
fn blank_cells(alloc: Global, places: u32) -> Result<Vec<Option<Atom>>, OutOfMemory>
    ensures { IfOk result (λ list. list.items ≡ replicate places None) }
{
    let mut list = Vec::new(alloc);
    for _ in 0..places {
        list.push(None)?;
    }
    Ok(list)
}
