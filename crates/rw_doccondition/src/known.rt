//! The variables of rules, by their numbers.

ghost use Rattle.std.specs.Prelude.{◌≡◌, ◌<◌, ◌≤◌, ◌+◌, All, OnOk, length};
ghost use Rattle.rw_docpattern.specs.Numbering.{new_name as new_name_of};
ghost use Rattle.rw_docpattern.specs.Variables.{kind_at, variable_name};
ghost use Rattle.rw_doccondition.specs.Reads.{known_seen};
ghost use Rattle.rw_doccondition.specs.Variables.{known_after, known_with};

use rw_docpattern::{Entry, kind_of, new_name};
use rw_schema::{Kind, NameIndex, OutOfMemory, Schema};
use std::alloc::Global;

/// The variables that have a number: their names and their kinds, by their numbers.
#[derive(Drop)]
pub struct Known {
    pub names: NameIndex,
    pub kinds: Vec<Kind>,
}

/// Gives the variable of the entry the next number, where it has none.
fn add_variable(
    alloc: Global,
    schema: &Schema,
    entry: &Entry,
    known: &mut Known,
) -> Result<(), OutOfMemory>
    requires { entry.now.attr.0 < length schema.now.attributes }
    ensures { OnOk result (known_seen known.new
        ≡ known_with (known_seen known.old) (kind_at schema.now.attributes entry.now) (new_name_of known.old.names (variable_name entry.now.term))) }
{
    if let Some(name) = new_name(&known.names, &entry.term) {
        known.names.push(alloc, name.as_str())?;
        known.kinds.push(kind_of(schema, entry))?;
    }
    Ok(())
}

/// Gives each variable of the entries that has no number the next one.
pub(crate) fn add_variables(
    alloc: Global,
    schema: &Schema,
    entries: &[Entry],
    known: &mut Known,
) -> Result<(), OutOfMemory>
    requires { All (λ entry. entry.attr.0 < length schema.now.attributes) entries.now }
    ensures { OnOk result (known_seen known.new ≡ known_after schema.now.attributes (known_seen known.old) entries.now) }
{
    for entry in entries {
        add_variable(alloc, schema, entry, known)?;
    }
    Ok(())
}
