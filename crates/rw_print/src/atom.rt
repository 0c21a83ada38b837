//! Atoms and cells, as values.

ghost use Rattle.std.specs.Prelude.{◌≡◌, IfOk};
ghost use Rattle.serde_json.specs.View.{view};
ghost use Rattle.rw_print.specs.Atoms.{atom_data, cell_data};

use rw_schema::Atom;
use serde_json::Value;
use std::alloc::{AllocError, Global};

/// The atom, or `null` where the cell is blank.
pub(crate) fn cell_value(alloc: Global, cell: &Option<Atom>) -> Result<Value, AllocError>
    ensures { IfOk result (λ value. view value ≡ cell_data cell.now) }
{
    match cell {
        Some(atom) => atom_value(alloc, atom),
        None => Ok(Value::Null),
    }
}

/// The atom, as it is read.
pub(crate) fn atom_value(alloc: Global, atom: &Atom) -> Result<Value, AllocError>
    ensures { IfOk result (λ value. view value ≡ atom_data atom.now) }
{
    match atom {
        Atom::Int(number) => Ok(Value::from(*number)),
        Atom::Text(text) => Value::try_from_str(alloc, text.as_str()),
        Atom::Bool(truth) => Ok(Value::from(*truth)),
    }
}
