//! The variables of a pattern, numbered by the places where they first stand.

ghost use Rattle.std.specs.Prelude.{◌≡◌, ◌<◌, ◌≤◌, ◌^◌, All, IfOk, IfSome, false, length};
ghost use Rattle.std.specs.List.{list_any};
ghost use Rattle.std.specs.Option.{option_map};
ghost use Rattle.std.specs.Str.{bytes_eq};
ghost use Rattle.rw_docpattern.specs.Numbering.{new_name as new_name_of};
ghost use Rattle.rw_docpattern.specs.Variables as spec;

use crate::{Entry, WrittenTerm};
use rw_schema::{Kind, NameIndex, OutOfMemory, Schema, Text};
use std::alloc::Global;

/// The variables of a pattern: their names and their kinds, by their numbers.
#[derive(Drop)]
pub(crate) struct Variables {
    pub(crate) names: NameIndex,
    pub(crate) kinds: Vec<Kind>,
}

/// The name of the variable that the whole term is.
fn variable_name(term: &WrittenTerm) -> Option<&Text>
    ensures { option_map (λ name. name.now) result ≡ spec.variable_name term.now }
{
    match term {
        WrittenTerm::Var(name) => Some(name),
        _ => None,
    }
}

/// The name of a variable that is none of those that were met.
pub fn new_name<'t>(names: &NameIndex, term: &'t WrittenTerm) -> Option<&'t Text>
    ensures name { option_map (λ name. name.now) result ≡ new_name_of names.now (spec.variable_name term.now) }
    ensures new { IfSome result (λ name. list_any (bytes_eq name.now) names.now ≡ false) }
{
    let name = variable_name(term)?;
    if names.has(name.as_str()) {
        None
    } else {
        Some(name)
    }
}

/// The kind of the entry's attribute.
pub fn kind_of(schema: &Schema, entry: &Entry) -> Kind
    requires { entry.now.attr.0 < length schema.now.attributes }
    ensures { result ≡ spec.kind_at schema.now.attributes entry.now }
{
    schema.attr(entry.attr).kind
}

/// The variables of the entries, each by the entry where it first stands.
pub(crate) fn variables_of(
    alloc: Global,
    schema: &Schema,
    entries: &[Entry],
) -> Result<Variables, OutOfMemory>
    requires { All (λ entry. entry.attr.0 < length schema.now.attributes) entries.now }
    ensures names { IfOk result (λ variables. variables.names ≡ spec.variables_of entries.now) }
    ensures kinds { IfOk result (λ variables. variables.kinds.items ≡ spec.kinds_of schema.now.attributes entries.now) }
    ensures few { IfOk result (λ variables. length variables.names ≤ length entries.now) }
{
    let mut names = NameIndex::new(alloc);
    let mut kinds = Vec::new(alloc);
    for entry in entries {
        if let Some(name) = new_name(&names, &entry.term) {
            names.push(alloc, name.as_str())?;
            kinds.push(kind_of(schema, entry))?;
        }
    }
    Ok(Variables { names, kinds })
}

/// The number of the name, or the greatest number where it is that of no variable.
pub(crate) fn number_in(names: &NameIndex, name: &str) -> u32
    requires { length names.now < 2 ^ 32 }
    ensures { result ≡ spec.number_in names.now name.now }
{
    let number = names.number_of(name).unwrap_or(u32::MAX as usize);
    number as u32
}
