//! What is written of the instances of a span or a cospan.

ghost use Rattle.std.specs.Prelude.{◌≡◌, IfOk, map, option_map};
ghost use Rattle.serde_json.specs.View.{view};
ghost use Rattle.rw_doc.specs.Chain.{all_some};
ghost use Rattle.rw_doc.specs.Json.{as_list};
ghost use Rattle.rw_docspan.specs.Instances as spec;
ghost use Rattle.rw_docspan.specs.Views.{form_lists};

use rw_doc::{has_only, items_of, parts_in, rows_in};
use rw_schema::OutOfMemory;
use serde_json::Value;
use std::alloc::Global;

/// What is written of an instance: the numbers of parts, the images, and the values of the cells.
#[derive(Drop)]
pub(crate) struct Form<'v> {
    pub(crate) parts: Vec<u32>,
    pub(crate) rows: Vec<Vec<u32>>,
    pub(crate) cells: Vec<&'v [Value]>,
}

/// The list that each item is.
fn lists_of<'v>(alloc: Global, items: &'v [Value]) -> Result<Option<Vec<&'v [Value]>>, OutOfMemory>
    ensures { IfOk result (λ lists. option_map (λ lists. map (λ list. map view list.now) lists.items) lists ≡ all_some as_list (map view items.now)) }
{
    let mut lists = Vec::new(alloc);
    for item in items {
        let Some(list) = items_of(item) else {
            return Ok(None);
        };
        lists.push(list)?;
    }
    Ok(Some(lists))
}

/// The lists of values that are written, no list where nothing is written, and nothing where something else is.
fn values_or_none<'v>(
    alloc: Global,
    value: Option<&'v Value>,
) -> Result<Option<Vec<&'v [Value]>>, OutOfMemory>
    ensures { IfOk result (λ lists. option_map (λ lists. map (λ list. map view list.now) lists.items) lists
        ≡ spec.values_or_none (option_map (λ value. view value.now) value.entry)) }
{
    let Some(value) = value else {
        return Ok(Some(Vec::new(alloc)));
    };
    match items_of(value) {
        Some(items) => lists_of(alloc, items),
        None => Ok(None),
    }
}

/// The form that is written at the keys of the value.
fn form_from<'v>(alloc: Global, value: &'v Value) -> Result<Option<Form<'v>>, OutOfMemory>
    ensures { IfOk result (λ form. option_map form_lists form ≡ spec.form_from (view value.now)) }
{
    let Some(parts) = parts_in(alloc, value)? else {
        return Ok(None);
    };
    let Some(rows) = rows_in(alloc, value)? else {
        return Ok(None);
    };
    let Some(cells) = values_or_none(alloc, value.get("cells"))? else {
        return Ok(None);
    };
    Ok(Some(Form { parts, rows, cells }))
}

/// The form of an instance, or nothing where the value is none.
pub(crate) fn form_of<'v>(alloc: Global, value: &'v Value) -> Result<Option<Form<'v>>, OutOfMemory>
    ensures { IfOk result (λ form. option_map form_lists form ≡ spec.form_of (view value.now)) }
{
    if has_only(&["cells", "parts", "rows"], value) {
        form_from(alloc, value)
    } else {
        Ok(None)
    }
}
