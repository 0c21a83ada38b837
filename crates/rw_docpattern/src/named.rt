//! Entries with the numbers of their attributes.

ghost use Rattle.std.specs.Prelude.{◌≡◌, ◌<◌, All, IfOk, IfSome, length, option_map};
ghost use Rattle.rw_doc.specs.Chain.{all_some};
ghost use Rattle.rw_docpattern.specs.Patterns as spec;

use crate::{Entry, WrittenEntry};
use rw_schema::{OutOfMemory, Schema};
use std::alloc::Global;

/// The entry with the number of its attribute's name.
fn entry_named(schema: &Schema, entry: WrittenEntry) -> Option<Entry>
    ensures value { result ≡ spec.entry_named schema.now.attributes entry }
    ensures there { IfSome result (λ entry. entry.attr.0 < length schema.now.attributes) }
{
    let WrittenEntry {
        attribute,
        part,
        term,
    } = entry;
    let attr = schema.attr_of(attribute.as_str())?;
    Some(Entry { attr, part, term })
}

/// The entries with the numbers of their attributes' names, or nothing where a name is none of an attribute's.
pub(crate) fn entries_named(
    alloc: Global,
    schema: &Schema,
    entries: Vec<WrittenEntry>,
) -> Result<Option<Vec<Entry>>, OutOfMemory>
    ensures value { IfOk result (λ named. option_map (λ named. named.items) named ≡ spec.entries_named schema.now.attributes entries.items) }
    ensures there { IfOk result (λ named. IfSome named (λ named. All (λ entry. entry.attr.0 < length schema.now.attributes) named.items)) }
{
    let mut named = Vec::new(alloc);
    for entry in entries {
        let Some(entry) = entry_named(schema, entry) else {
            return Ok(None);
        };
        named.push(entry)?;
    }
    Ok(Some(named))
}
