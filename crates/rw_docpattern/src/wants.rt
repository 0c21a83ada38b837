//! What the entries of a pattern want.

ghost use Rattle.std.specs.Prelude.{◌≡◌, ◌<◌, ◌^◌, IfOk, length, option_map};
ghost use Rattle.rw_doc.specs.Chain.{all_some};
ghost use Rattle.rw_docpattern.specs.Patterns as spec;

use crate::variables::number_in;
use crate::{Entry, WrittenTerm};
use rw_pattern::{PatternCell, Want};
use rw_schema::{NameIndex, OutOfMemory};
use std::alloc::Global;

/// The atom, or the number of the variable; nothing where the term is an operation.
fn want_of(names: &NameIndex, term: WrittenTerm) -> Option<Want>
    requires { length names.now < 2 ^ 32 }
    ensures { result ≡ spec.want_of names.now term }
{
    match term {
        WrittenTerm::Const(atom) => Some(Want::Const(atom)),
        WrittenTerm::Var(name) => Some(Want::Var(number_in(names, name.as_str()))),
        WrittenTerm::Op(..) => None,
    }
}

/// The entry with the number of its variable.
fn cell_of(names: &NameIndex, entry: Entry) -> Option<PatternCell>
    requires { length names.now < 2 ^ 32 }
    ensures { result ≡ spec.cell_of names.now entry }
{
    let Entry { attr, part, term } = entry;
    let want = want_of(names, term)?;
    Some(PatternCell { attr, part, want })
}

/// The entries with the numbers of their variables, or nothing where a term is an operation.
pub fn cells_of(
    alloc: Global,
    names: &NameIndex,
    entries: Vec<Entry>,
) -> Result<Option<Vec<PatternCell>>, OutOfMemory>
    requires { length names.now < 2 ^ 32 }
    ensures { IfOk result (λ cells. option_map (λ cells. cells.items) cells ≡ all_some (spec.cell_of names.now) entries.items) }
{
    let mut cells = Vec::new(alloc);
    for entry in entries {
        let Some(cell) = cell_of(names, entry) else {
            return Ok(None);
        };
        cells.push(cell)?;
    }
    Ok(Some(cells))
}
