//! The lines of pushouts and pullbacks.

ghost use Rattle.std.specs.Prelude.{◌≡◌, ◌<◌, ◌≤◌, IfOk, length, map};
ghost use Rattle.serde_json.specs.View.{view};
ghost use Rattle.rw_spec.specs.Tabled.{IsOver};
ghost use Rattle.rw_print.specs.Limits.{cells_data, limit_data, clash_data, large_data};
ghost use Rattle.rw_print.specs.Atoms.{atom_data, cell_data};
ghost use Rattle.rw_print.specs.Lines.{line, count_data, tuple_data};

use crate::atom::{atom_value, cell_value};
use crate::line::{counts_of, line_of};
use crate::refused::{attribute_name, object_name};
use rw_schema::{ArrowId, Atom, AttrId, ObjectId, OutOfMemory, PartMap, Rows, Schema};
use rw_table::Table;
use serde_json::{Value, json};
use std::alloc::{AllocError, Global};

/// The line `{"cells":[..],"left":map,"right":map,"rows":[..],"sizes":[..]}` of an instance with two maps. A blank cell is
/// printed as `null`.
pub fn limit_line(
    alloc: Global,
    schema: &Schema,
    table: &Table,
    left: &PartMap,
    right: &PartMap,
) -> Result<Vec<u8>, OutOfMemory>
    requires table { IsOver schema.now table.now }
    requires left { length left.now ≡ length schema.now.objects }
    requires right { length right.now ≡ length schema.now.objects }
    ensures { IfOk result (λ text. text.items ≡ line (limit_data table.now.rows left.now right.now)) }
{
    let objects = schema.objects();
    let arrows = schema.arrows();
    let attributes = schema.attributes();
    let rows = table.rows();
    prove!(rows.name_lists() == objects);
    prove!(rows.row_lists() == arrows);
    prove!(rows.cell_lists() == attributes);
    let value = limit_value(alloc, rows, left, right)?;
    line_of(alloc, &value)
}

fn limit_value(
    alloc: Global,
    rows: &Rows,
    left: &PartMap,
    right: &PartMap,
) -> Result<Value, AllocError>
    requires names { length rows.now.names ≤ 64 }
    requires arrows { length rows.now.arrows ≤ 256 }
    requires cells { length rows.now.cells ≤ 256 }
    requires left { length left.now ≤ 64 }
    requires right { length right.now ≤ 64 }
    ensures { IfOk result (λ value. view value ≡ limit_data rows.now left.now right.now) }
{
    let cells = Value::Array(cell_lists(alloc, rows)?);
    let left = Value::Array(image_lists(alloc, left)?);
    let right = Value::Array(image_lists(alloc, right)?);
    let arrows = Value::Array(arrow_rows(alloc, rows)?);
    let sizes = Value::Array(sizes_of(alloc, rows)?);
    json!(in alloc; {"cells": cells, "left": left, "right": right, "rows": arrows, "sizes": sizes})
}

/// The lists of a map, as values.
fn image_lists(alloc: Global, images: &PartMap) -> Result<Vec<Value>, AllocError>
    requires { length images.now ≤ 64 }
    ensures { IfOk result (λ values. map view values.items ≡ map tuple_data images.now) }
{
    let mut values = Vec::new(alloc);
    for place in 0..images.lists() {
        let list = images.images(ObjectId(place as u16));
        values.push(Value::Array(counts_of(alloc, list)?))?;
    }
    Ok(values)
}

/// The images under each arrow, as values.
pub(crate) fn arrow_rows(alloc: Global, rows: &Rows) -> Result<Vec<Value>, AllocError>
    requires { length rows.now.arrows ≤ 256 }
    ensures { IfOk result (λ values. map view values.items ≡ map tuple_data rows.now.arrows) }
{
    let mut values = Vec::new(alloc);
    for place in 0..rows.row_lists() {
        let row = rows.row(ArrowId(place as u16));
        values.push(Value::Array(counts_of(alloc, row)?))?;
    }
    Ok(values)
}

/// The numbers of parts, as values.
fn sizes_of(alloc: Global, rows: &Rows) -> Result<Vec<Value>, AllocError>
    requires { length rows.now.names ≤ 64 }
    ensures { IfOk result (λ values. map view values.items ≡ map count_data (map length rows.now.names)) }
{
    let mut values = Vec::new(alloc);
    for place in 0..rows.name_lists() {
        let count = rows.names(ObjectId(place as u16)).len();
        values.push(Value::from(count as u64))?;
    }
    Ok(values)
}

/// The cells of each attribute, as values.
pub(crate) fn cell_lists(alloc: Global, rows: &Rows) -> Result<Vec<Value>, AllocError>
    requires { length rows.now.cells ≤ 256 }
    ensures { IfOk result (λ values. map view values.items ≡ map cells_data rows.now.cells) }
{
    let mut values = Vec::new(alloc);
    for place in 0..rows.cell_lists() {
        let cells = rows.cells(AttrId(place as u16));
        values.push(Value::Array(cell_values(alloc, cells)?))?;
    }
    Ok(values)
}

/// The cells, as values.
fn cell_values(alloc: Global, cells: &[Option<Atom>]) -> Result<Vec<Value>, AllocError>
    ensures { IfOk result (λ values. map view values.items ≡ map cell_data cells.now) }
{
    let mut values = Vec::new(alloc);
    for cell in cells {
        values.push(cell_value(alloc, cell)?)?;
    }
    Ok(values)
}

/// The line `{"clash":[object,part,attribute,first,second]}`, with the names of the object and the attribute.
pub fn clash_line(
    alloc: Global,
    schema: &Schema,
    object: ObjectId,
    part: u32,
    attr: AttrId,
    first: &Atom,
    second: &Atom,
) -> Result<Vec<u8>, OutOfMemory>
    requires object { object.0 < length schema.now.objects }
    requires attr { attr.0 < length schema.now.attributes }
    ensures { IfOk result (λ text. text.items ≡ line (clash_data schema.now object part attr first.now second.now)) }
{
    let value = clash_value(alloc, schema, object, part, attr, first, second)?;
    line_of(alloc, &value)
}

fn clash_value(
    alloc: Global,
    schema: &Schema,
    object: ObjectId,
    part: u32,
    attr: AttrId,
    first: &Atom,
    second: &Atom,
) -> Result<Value, AllocError>
    requires object { object.0 < length schema.now.objects }
    requires attr { attr.0 < length schema.now.attributes }
    ensures { IfOk result (λ value. view value ≡ clash_data schema.now object part attr first.now second.now) }
{
    let first = atom_value(alloc, first)?;
    let second = atom_value(alloc, second)?;
    let object = object_name(schema, object);
    let attribute = attribute_name(schema, attr);
    json!(in alloc; {"clash": [object, part, attribute, first, second]})
}

/// The line `{"too_large":object}`, with the name of the object.
pub fn large_line(alloc: Global, schema: &Schema, object: ObjectId) -> Result<Vec<u8>, OutOfMemory>
    requires { object.0 < length schema.now.objects }
    ensures { IfOk result (λ text. text.items ≡ line (large_data schema.now object)) }
{
    let value = large_value(alloc, schema, object)?;
    line_of(alloc, &value)
}

fn large_value(alloc: Global, schema: &Schema, object: ObjectId) -> Result<Value, AllocError>
    requires { object.0 < length schema.now.objects }
    ensures { IfOk result (λ value. view value ≡ large_data schema.now object) }
{
    json!(in alloc; {"too_large": object_name(schema, object)})
}
