//! Instances from JSON values.

ghost use Rattle.std.specs.Prelude.{◌≡◌, [], IfOk, None, map, option_map, replicate};
ghost use Rattle.serde_json.specs.View.{view};
ghost use Rattle.rw_schema.specs.Presentation.{signature_of};
ghost use Rattle.rw_table.specs.TableFaults.{table_fault, equation_fault};
ghost use Rattle.rw_doc.specs.Gives.{Gives};
ghost use Rattle.rw_doc.specs.Instances as spec;
ghost use Rattle.rw_doc.specs.Sections as sections;

use crate::ReadDocEnd;
use crate::cells::read_cells;
use crate::faults::{refused_at, refused_of};
use crate::json::has_only;
use crate::parts::{names_of, read_parts, zeros};
use crate::rows::read_rows;
use rw_schema::{Atom, OutOfMemory, Rows, Schema, Section};
use rw_table::{Table, TableFault};
use serde_json::Value;
use std::alloc::Global;

/// The instance of the schema that the value is, or its first fault: the sections instance, parts, rows, cells and equation
/// are read in this order, and the entries of each in theirs. It is said whether a cell may be blank.
pub fn read_instance(
    alloc: Global,
    value: &Value,
    schema: &Schema,
    blanks: bool,
) -> Result<Table, ReadDocEnd>
    ensures { Gives (λ table. table) result (spec.read_instance (signature_of schema.now) blanks (view value.now)) }
{
    if !has_only(&["cells", "parts", "rows"], value) {
        return Err(refused_of(2, Section::Instance));
    }
    let Some(parts) = value.get("parts") else {
        return Err(refused_of(2, Section::Instance));
    };
    let Some(rows) = value.get("rows") else {
        return Err(refused_of(2, Section::Instance));
    };
    read_sections(alloc, schema, blanks, parts, rows, value.get("cells"))
}

/// The instance of the sections with these values.
fn read_sections(
    alloc: Global,
    schema: &Schema,
    blanks: bool,
    parts: &Value,
    rows: &Value,
    cells: Option<&Value>,
) -> Result<Table, ReadDocEnd>
    ensures { Gives (λ table. table) result
        (sections.instance_of_sections (signature_of schema.now) blanks (view parts.now) (view rows.now) (option_map (λ value. view value.now) cells.entry)) }
{
    let parts = read_parts(alloc, schema, parts)?;
    let rows = read_rows(alloc, schema, parts.as_slice(), rows)?;
    let cells = read_cells(alloc, schema, blanks, parts.as_slice(), cells)?;
    let rows = rows_of(alloc, parts, rows, cells)?;
    table_of(alloc, schema, rows)
}

/// The lists of an instance with so many parts, these images and these cells.
pub fn rows_of(
    alloc: Global,
    parts: Vec<u32>,
    rows: Vec<Vec<u32>>,
    cells: Vec<Vec<Option<Atom>>>,
) -> Result<Rows, OutOfMemory>
    ensures { IfOk result (λ lists. lists ≡ spec.rows_of parts.items (map (λ row. row.items) rows.items) (map (λ list. list.items) cells.items)) }
{
    let names = names_of(alloc, parts.as_slice())?;
    Ok(Rows::from_lists(names, rows, cells, parts))
}

/// The instance with lists that are one unless an equation fails.
fn table_of(alloc: Global, schema: &Schema, rows: Rows) -> Result<Table, ReadDocEnd>
    requires { table_fault (signature_of schema.now) rows ≡ equation_fault (signature_of schema.now) rows }
    ensures { Gives (λ table. table) result (spec.with_equations (signature_of schema.now) rows) }
{
    match Table::new(alloc, schema, rows) {
        Ok(table) => Ok(table),
        Err(TableFault::OutOfMemory) => Err(ReadDocEnd::OutOfMemory),
        Err(TableFault::Equation { equation, name }) => {
            Err(refused_at(10, Section::Equation, equation, name))
        }
        Err(_) => unreachable!(),
    }
}

/// So many lists of images without one.
fn empty_rows(alloc: Global, count: usize) -> Result<Vec<Vec<u32>>, OutOfMemory>
    ensures { IfOk result (λ rows. map (λ row. row.items) rows.items ≡ replicate count []) }
{
    let mut rows = Vec::new(alloc);
    for _place in 0..count {
        rows.push(Vec::new(alloc))?;
    }
    Ok(rows)
}

/// So many lists of cells without one.
fn empty_cells(alloc: Global, count: usize) -> Result<Vec<Vec<Option<Atom>>>, OutOfMemory>
    ensures { IfOk result (λ lists. map (λ list. list.items) lists.items ≡ replicate count []) }
{
    let mut lists = Vec::new(alloc);
    for _place in 0..count {
        lists.push(Vec::new(alloc))?;
    }
    Ok(lists)
}

/// The lists in which no object has a part.
fn empty_lists(alloc: Global, schema: &Schema) -> Result<Rows, OutOfMemory>
    ensures { IfOk result (λ lists. lists ≡ (spec.empty_instance (signature_of schema.now)).rows) }
{
    let parts = zeros(alloc, schema.objects())?;
    let rows = empty_rows(alloc, schema.arrows())?;
    let cells = empty_cells(alloc, schema.attributes())?;
    rows_of(alloc, parts, rows, cells)
}

/// The instance of the schema in which no object has a part.
pub fn empty_instance(alloc: Global, schema: &Schema) -> Result<Table, OutOfMemory>
    ensures { IfOk result (λ table. table ≡ spec.empty_instance (signature_of schema.now)) }
{
    let rows = empty_lists(alloc, schema)?;
    Table::of_instance(alloc, schema, rows)
}
