//! The line of an instance that a run shows.

ghost use Rattle.std.specs.Prelude.{◌≡◌, ◌≤◌, IfOk, length, map};
ghost use Rattle.serde_json.specs.View.{view};
ghost use Rattle.rw_print.specs.Lines.{line, count_data, tuple_data};
ghost use Rattle.rw_print.specs.RunLines.{show_data};

use crate::limit::{arrow_rows, cell_lists};
use crate::line::{counts_of, line_of};
use rw_schema::{ObjectId, OutOfMemory, Rows, Schema};
use serde_json::{Value, json};
use std::alloc::{AllocError, Global};

/// The line `{"box":place,"cells":[..],"names":[..],"next":[..],"rows":[..]}` of an instance over the schema. The lists of
/// `names` have the live names of each object, ascending, those of `rows` and `cells` follow that order, and `next` has the
/// next names. A blank cell is printed as `null`.
pub fn show_line(
    alloc: Global,
    schema: &Schema,
    place: u32,
    rows: &Rows,
) -> Result<Vec<u8>, OutOfMemory>
    requires names { length rows.now.names ≡ length schema.now.objects }
    requires arrows { length rows.now.arrows ≡ length schema.now.arrows }
    requires cells { length rows.now.cells ≡ length schema.now.attributes }
    requires next { length rows.now.next ≡ length schema.now.objects }
    ensures { IfOk result (λ text. text.items ≡ line (show_data place rows.now)) }
{
    let objects = schema.objects();
    let arrows = schema.arrows();
    let attributes = schema.attributes();
    prove!(rows.name_lists() == objects);
    prove!(rows.row_lists() == arrows);
    prove!(rows.cell_lists() == attributes);
    prove!(rows.next_names() == objects);
    let value = show_value(alloc, place, rows)?;
    line_of(alloc, &value)
}

fn show_value(alloc: Global, place: u32, rows: &Rows) -> Result<Value, AllocError>
    requires names { length rows.now.names ≤ 64 }
    requires arrows { length rows.now.arrows ≤ 256 }
    requires cells { length rows.now.cells ≤ 256 }
    requires next { length rows.now.next ≤ 64 }
    ensures { IfOk result (λ value. view value ≡ show_data place rows.now) }
{
    let cells = Value::Array(cell_lists(alloc, rows)?);
    let names = Value::Array(name_lists(alloc, rows)?);
    let next = Value::Array(next_names(alloc, rows)?);
    let arrows = Value::Array(arrow_rows(alloc, rows)?);
    json!(in alloc; {"box": place, "cells": cells, "names": names, "next": next, "rows": arrows})
}

/// The names of the parts of each object, as values.
fn name_lists(alloc: Global, rows: &Rows) -> Result<Vec<Value>, AllocError>
    requires { length rows.now.names ≤ 64 }
    ensures { IfOk result (λ values. map view values.items ≡ map tuple_data rows.now.names) }
{
    let mut values = Vec::new(alloc);
    for place in 0..rows.name_lists() {
        let names = rows.names(ObjectId(place as u16));
        values.push(Value::Array(counts_of(alloc, names)?))?;
    }
    Ok(values)
}

/// The next names, as values.
fn next_names(alloc: Global, rows: &Rows) -> Result<Vec<Value>, AllocError>
    requires { length rows.now.next ≤ 64 }
    ensures { IfOk result (λ values. map view values.items ≡ map count_data rows.now.next) }
{
    let mut values = Vec::new(alloc);
    for place in 0..rows.next_names() {
        values.push(Value::from(rows.next(ObjectId(place as u16))))?;
    }
    Ok(values)
}
