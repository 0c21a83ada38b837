//! The lists of an instance, read from its columns.

ghost use Rattle.std.specs.Prelude.{[], ◌≡◌, ◌<◌, All, IfOk, None, Option, length, map, slice_index, slice_index_or};
ghost use Rattle.rw_schema.specs.RowLists.{list_at};
ghost use Rattle.rw_column.specs.Threads.{places_from};
ghost use Rattle.rw_columns.specs.Columned.{column_at};
ghost use Rattle.rw_columns.specs.inner.Filled.{AreAll};
ghost use Rattle.rw_columns.specs.inner.Read.{AreNamesIn, IsNextIn, IsRowIn, AreCellsIn, AreWithin};

use crate::fill::copy_cell;
use rw_column::{Column, Walk};
use rw_schema::{ArrowEnds, Atom, AttrEnds, ObjectId, OutOfMemory};
use rw_steps::Steps;
use std::alloc::Global;
use std::sync::ledger::Ledger;

/// The names of each object.
pub fn read_names<L: Ledger>(
    alloc: Global,
    columns: &[Column],
    steps: &mut Steps<L>,
) -> Result<Vec<Vec<u32>>, OutOfMemory>
    requires { All (λ column. 0 < column.targets) columns.now }
    ensures { IfOk result (λ lists. AreAll [] (AreNamesIn columns.now) (length columns.now) (map (λ list. list.items) lists.items)) }
{
    let mut lists = Vec::new(alloc);
    for place in 0..columns.len() {
        lists.push(names_in(alloc, &columns[place], steps)?)?;
    }
    Ok(lists)
}

/// The names that a column has.
fn names_in<L: Ledger>(
    alloc: Global,
    column: &Column,
    steps: &mut Steps<L>,
) -> Result<Vec<u32>, OutOfMemory>
    requires { 0 < column.now.targets }
    ensures { IfOk result (λ names. names.items ≡ places_from column.now.values 0 0) }
{
    let mut names = Vec::new(alloc);
    let mut walk = Walk::new(column, 0);
    while let Some(name) = walk.next(steps) {
        names.push(name)?;
    }
    Ok(names)
}

/// The next name of each object.
pub fn read_next(alloc: Global, columns: &[Column]) -> Result<Vec<u32>, OutOfMemory>
    ensures { IfOk result (λ next. AreAll 0 (IsNextIn columns.now) (length columns.now) next.items) }
{
    let mut next = Vec::new(alloc);
    for place in 0..columns.len() {
        next.push(columns[place].places())?;
    }
    Ok(next)
}

/// The row of each arrow, where these are the names of the objects.
pub fn read_rows<L: Ledger>(
    alloc: Global,
    columns: &[Column],
    ends: &[ArrowEnds],
    names: &[Vec<u32>],
    steps: &mut Steps<L>,
) -> Result<Vec<Vec<u32>>, OutOfMemory>
    requires beside { length columns.now ≡ length ends.now }
    requires within { AreWithin (map (λ each. each.source.0) ends.now) (λ arrow. length (column_at columns.now arrow).values) (map (λ list. list.items) names.now) }
    ensures { IfOk result (λ rows. AreAll [] (IsRowIn columns.now (map (λ each. each.source.0) ends.now) (map (λ list. list.items) names.now)) (length ends.now) (map (λ list. list.items) rows.items)) }
{
    let mut rows = Vec::new(alloc);
    for place in 0..ends.len() {
        let sources = list_of(names, ends[place].source);
        rows.push(values_at(alloc, &columns[place], sources, steps)?)?;
    }
    Ok(rows)
}

/// The names of the object.
fn list_of(names: &[Vec<u32>], object: ObjectId) -> &[u32]
    requires { object.0 < length names.now }
    ensures { result.now ≡ list_at (map (λ list. list.items) names.now) object.0 }
{
    names[object.0 as usize].as_slice()
}

/// The number of the column at each name, each in one step.
fn values_at<L: Ledger>(
    alloc: Global,
    column: &Column,
    names: &[u32],
    steps: &mut Steps<L>,
) -> Result<Vec<u32>, OutOfMemory>
    requires { All (λ name. name < length column.now.values) names.now }
    ensures { IfOk result (λ row. row.items ≡ map (slice_index column.now.values) names.now) }
{
    let mut row = Vec::new(alloc);
    for name in names {
        steps.tick();
        row.push(column.value(*name))?;
    }
    Ok(row)
}

/// The cells of each attribute, where these are the names of the objects.
pub fn read_cells<L: Ledger>(
    alloc: Global,
    lists: &[Vec<Option<Atom>>],
    ends: &[AttrEnds],
    names: &[Vec<u32>],
    steps: &mut Steps<L>,
) -> Result<Vec<Vec<Option<Atom>>>, OutOfMemory>
    requires beside { length lists.now ≡ length ends.now }
    requires within { AreWithin (map (λ each. each.object.0) ends.now) (λ attribute. length (list_at (map (λ list. list.items) lists.now) attribute)) (map (λ list. list.items) names.now) }
    ensures { IfOk result (λ cells. AreAll [] (AreCellsIn (map (λ list. list.items) lists.now) (map (λ each. each.object.0) ends.now) (map (λ list. list.items) names.now)) (length ends.now) (map (λ list. list.items) cells.items)) }
{
    let mut cells = Vec::new(alloc);
    for place in 0..ends.len() {
        let holders = list_of(names, ends[place].object);
        cells.push(cells_at(alloc, lists[place].as_slice(), holders, steps)?)?;
    }
    Ok(cells)
}

/// A copy of the cell at each name, each in one step.
fn cells_at<L: Ledger>(
    alloc: Global,
    list: &[Option<Atom>],
    names: &[u32],
    steps: &mut Steps<L>,
) -> Result<Vec<Option<Atom>>, OutOfMemory>
    requires { All (λ name. name < length list.now) names.now }
    ensures { IfOk result (λ cells. cells.items ≡ map (λ name. slice_index_or list.now name None) names.now) }
{
    let mut cells = Vec::new(alloc);
    for name in names {
        steps.tick();
        cells.push(copy_cell(alloc, &list[*name as usize])?)?;
    }
    Ok(cells)
}
