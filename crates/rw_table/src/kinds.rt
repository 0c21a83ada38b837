//! Whether each atom is of its attribute's kind.

ghost use Rattle.std.specs.Prelude.{◌≡◌, ◌<◌, ◌≤◌, ◌^◌, true, IfOk, None, length, map};
ghost use Rattle.rw_schema.specs.First.{first_in, fault_unless};
ghost use Rattle.rw_schema.specs.Presentation.{signature_of, ends_of_attribute};
ghost use Rattle.rw_schema.specs.RowLists.{list_at};
ghost use Rattle.rw_table.specs.TableFaults.{has_shape, is_cell_of, names_fault, cell_fault, kind_fault};
ghost use Rattle.rw_table.specs.declared.fault.TableFault.TheVariants as faults;

use crate::TableFault;
use crate::names::count_of;
use rw_schema::{Atom, AttrDef, AttrEnds, AttrId, Kind, OutOfMemory, Rows, Schema};
use std::alloc::Global;

/// The ends of the attributes, in order.
pub fn attribute_ends(alloc: Global, attributes: &[AttrDef]) -> Result<Vec<AttrEnds>, OutOfMemory>
    ensures { IfOk result (λ ends. ends.items ≡ map ends_of_attribute attributes.now) }
{
    let ends = attributes.iter().map(ends_of).collect(alloc)?;
    Ok(ends)
}

/// The ends of the attribute.
fn ends_of(attribute: &AttrDef) -> AttrEnds
    ensures { result ≡ ends_of_attribute attribute.now }
{
    AttrEnds {
        object: attribute.object,
        kind: attribute.kind,
    }
}

/// The first atom of another kind than its attribute.
pub fn first_kind_fault(schema: &Schema, rows: &Rows) -> Option<TableFault>
    requires shape { has_shape (signature_of schema.now) rows.now ≡ true }
    requires names { names_fault rows.now ≡ None }
    ensures { result ≡ kind_fault (signature_of schema.now) rows.now }
{
    let attributes = schema.attribute_list();
    for (place, attribute) in attributes.iter().enumerate() {
        if let Some(fault) = first_cell_fault(rows, AttrId(place as u16), ends_of(attribute)) {
            return Some(fault);
        }
    }
    None
}

/// The first cell of the attribute with an atom of another kind.
fn first_cell_fault(rows: &Rows, attribute: AttrId, ends: AttrEnds) -> Option<TableFault>
    requires holder { ends.object.0 < length rows.now.names }
    requires cells { attribute.0 < length rows.now.cells }
    requires beside { length (list_at rows.now.cells attribute.0) ≡ length (list_at rows.now.names ends.object.0) }
    requires names { names_fault rows.now ≡ None }
    ensures { result ≡ cell_fault rows.now attribute.0 ends }
{
    let names = rows.names(ends.object);
    let cells = rows.cells(attribute);
    let count = count_of(names);
    prove!(cells.len() == count);
    first_of_another_kind(attribute, ends.kind, cells)
}

/// The first of the cells with an atom of another kind.
fn first_of_another_kind(
    attribute: AttrId,
    kind: Kind,
    cells: &[Option<Atom>],
) -> Option<TableFault>
    requires few { length cells.now ≤ 2 ^ 32 }
    ensures { result ≡ first_in (λ position cell. fault_unless (is_cell_of kind cell) (faults.Kind attribute position)) 0 cells.now }
{
    for (position, cell) in cells.iter().enumerate() {
        if !is_of(kind, cell) {
            return Some(TableFault::Kind {
                attr: attribute,
                position: position as u32,
            });
        }
    }
    None
}

/// Whether the cell is blank, or its atom is of the kind.
fn is_of(kind: Kind, cell: &Option<Atom>) -> bool
    ensures { result ≡ is_cell_of kind cell.now }
{
    match cell {
        Some(atom) => atom.is_of(kind),
        None => true,
    }
}
