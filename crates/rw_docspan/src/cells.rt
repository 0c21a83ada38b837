//! The cells that are written of an instance.

ghost use Rattle.std.specs.Prelude.{◌≡◌, IfOk, length, map, option_map};
ghost use Rattle.serde_json.specs.View.{view};
ghost use Rattle.rw_schema.specs.First.{map_in};
ghost use Rattle.rw_schema.specs.Presentation.{ends_of_attribute};
ghost use Rattle.rw_doc.specs.Chain.{all_some};
ghost use Rattle.rw_docspan.specs.Instances as spec;

use rw_doc::atom_of;
use rw_schema::{Atom, AttrDef, Kind, OutOfMemory};
use serde_json::Value;
use std::alloc::Global;

/// The blank or the atom of the kind that the value is, or nothing where it is neither.
fn cell_of(alloc: Global, kind: Kind, value: &Value) -> Result<Option<Option<Atom>>, OutOfMemory>
    ensures { IfOk result (λ cell. cell ≡ spec.cell_of kind (view value.now)) }
{
    if value.is_null() {
        return Ok(Some(None));
    }
    match atom_of(alloc, value)? {
        Some(atom) if atom.is_of(kind) => Ok(Some(Some(atom))),
        _ => Ok(None),
    }
}

/// The cell of the kind that each value is.
fn cells_with(
    alloc: Global,
    kind: Kind,
    values: &[Value],
) -> Result<Option<Vec<Option<Atom>>>, OutOfMemory>
    ensures { IfOk result (λ cells. option_map (λ cells. cells.items) cells ≡ all_some (spec.cell_of kind) (map view values.now)) }
{
    let mut cells = Vec::new(alloc);
    for value in values {
        let Some(cell) = cell_of(alloc, kind, value)? else {
            return Ok(None);
        };
        cells.push(cell)?;
    }
    Ok(Some(cells))
}

/// The cells of each attribute.
pub(crate) fn cells_of(
    alloc: Global,
    attributes: &[AttrDef],
    lists: &[&[Value]],
) -> Result<Option<Vec<Vec<Option<Atom>>>>, OutOfMemory>
    requires { length lists.now ≡ length attributes.now }
    ensures { IfOk result (λ cells. option_map (λ cells. map (λ list. list.items) cells.items) cells
        ≡ all_some (λ list. list) (map_in (spec.cells_at (map (λ list. map view list.now) lists.now)) 0 (map ends_of_attribute attributes.now))) }
{
    let mut cells = Vec::new(alloc);
    for (place, attribute) in attributes.iter().enumerate() {
        let Some(list) = cells_with(alloc, attribute.kind, lists[place])? else {
            return Ok(None);
        };
        cells.push(list)?;
    }
    Ok(Some(cells))
}
