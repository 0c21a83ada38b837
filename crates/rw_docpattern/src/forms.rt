//! What is written of patterns.

ghost use Rattle.std.specs.Prelude.{◌≡◌, IfOk, map, option_map};
ghost use Rattle.serde_json.specs.View.{view};
ghost use Rattle.rw_doc.specs.Chain.{all_some};
ghost use Rattle.rw_docpattern.specs.Forms as spec;
ghost use Rattle.rw_docpattern.specs.Views.{form_of};

use crate::WrittenEntry;
use crate::terms::term_of;
use rw_doc::{as_number, has_only, items_of, parts_in, rows_in};
use rw_schema::{OutOfMemory, Text};
use serde_json::Value;
use std::alloc::Global;

/// What is written of a pattern: the numbers of parts, the rows, and the entries on cells.
#[derive(Drop)]
pub struct Form {
    pub sizes: Vec<u32>,
    pub rows: Vec<Vec<u32>>,
    pub entries: Vec<WrittenEntry>,
}

/// The entry of the attribute's name, the part and the term that the items are.
fn entry_from(alloc: Global, items: &[Value]) -> Result<Option<WrittenEntry>, OutOfMemory>
    ensures { IfOk result (λ entry. entry ≡ spec.entry_from (map view items.now)) }
{
    let [attribute, part, term] = items else {
        return Ok(None);
    };
    let (Some(name), Some(part)) = (attribute.as_str(), as_number(part)) else {
        return Ok(None);
    };
    let Some(term) = term_of(alloc, term)? else {
        return Ok(None);
    };
    let attribute = Text::of(alloc, name)?;
    Ok(Some(WrittenEntry {
        attribute,
        part,
        term,
    }))
}

/// The entry that the value is, or nothing where it is none.
fn entry_of(alloc: Global, value: &Value) -> Result<Option<WrittenEntry>, OutOfMemory>
    ensures { IfOk result (λ entry. entry ≡ spec.entry_of (view value.now)) }
{
    match items_of(value) {
        Some(items) => entry_from(alloc, items),
        None => Ok(None),
    }
}

/// An entry of each item.
fn entries_of(alloc: Global, items: &[Value]) -> Result<Option<Vec<WrittenEntry>>, OutOfMemory>
    ensures { IfOk result (λ entries. option_map (λ entries. entries.items) entries ≡ all_some spec.entry_of (map view items.now)) }
{
    let mut entries = Vec::new(alloc);
    for item in items {
        let Some(entry) = entry_of(alloc, item)? else {
            return Ok(None);
        };
        entries.push(entry)?;
    }
    Ok(Some(entries))
}

/// The entries that are written, no entries where nothing is written, and nothing where something else is.
fn entries_or_none(
    alloc: Global,
    value: Option<&Value>,
) -> Result<Option<Vec<WrittenEntry>>, OutOfMemory>
    ensures { IfOk result (λ entries. option_map (λ entries. entries.items) entries ≡ spec.entries_or_none (option_map (λ value. view value.now) value.entry)) }
{
    let Some(value) = value else {
        return Ok(Some(Vec::new(alloc)));
    };
    match items_of(value) {
        Some(items) => entries_of(alloc, items),
        None => Ok(None),
    }
}

/// The form that is written at the keys of the value.
fn form_from(alloc: Global, value: &Value) -> Result<Option<Form>, OutOfMemory>
    ensures { IfOk result (λ form. option_map form_of form ≡ spec.form_from (view value.now)) }
{
    let Some(sizes) = parts_in(alloc, value)? else {
        return Ok(None);
    };
    let Some(rows) = rows_in(alloc, value)? else {
        return Ok(None);
    };
    let Some(entries) = entries_or_none(alloc, value.get("cells"))? else {
        return Ok(None);
    };
    Ok(Some(Form {
        sizes,
        rows,
        entries,
    }))
}

/// The form of a pattern with no other keys than these, or nothing where the value is none.
pub fn form_with(alloc: Global, keys: &[&str], value: &Value) -> Result<Option<Form>, OutOfMemory>
    ensures { IfOk result (λ form. option_map form_of form ≡ spec.form_with (map (λ key. key.now) keys.now) (view value.now)) }
{
    if has_only(keys, value) {
        form_from(alloc, value)
    } else {
        Ok(None)
    }
}
