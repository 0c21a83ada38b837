//! What stands at a name once a change is carried out on columns.

ghost use Rattle.std.specs.Prelude.{◌≡◌, ◌==◌, ◌&&◌, ◌<◌, ◌+◌, None, true, not, length, position, slice_index, slice_index_or};
ghost use Rattle.std.specs.List.{list_any};
ghost use Rattle.std.specs.Option.{option_map};
ghost use Rattle.rw_schema.specs.RowLists.{list_at};
ghost use Rattle.rw_schema.specs.Signature.{source_of, holder_of};
ghost use Rattle.rw_spec.specs.Ascending.{ascends};
ghost use Rattle.rw_spec.specs.Instance.{Has};
ghost use Rattle.rw_columns.specs.ChangedColumns.{FitsColumns};
ghost use Rattle.rw_columns.specs.Columned.{instance_of_columns};
ghost use Rattle.rw_delta.specs.After.{instance_after};

use rw_columns::{Change, Columns, place_of_entry};
use rw_schema::{ArrowId, Atom, AttrId, ObjectId};
use rw_steps::Steps;
use rw_table::{has_name, position_of};
use std::sync::ledger::Ledger;

/// Where the arrow leads from the name: the image beside it where it was added, what is written beside it, or what the
/// columns hold.
pub fn value_after<L: Ledger>(
    columns: &Columns,
    change: &Change,
    arrow: ArrowId,
    name: u32,
    steps: &mut Steps<L>,
) -> u32
    requires fits { FitsColumns columns.now change.now }
    requires arrow { arrow.0 < length columns.now.signature.arrows }
    requires name { Has (instance_after columns.now change.now) (source_of columns.now.signature arrow.0) name }
    ensures value { result ≡ (instance_after columns.now change.now).value arrow.0 name }
    ensures ticks { steps.new ≡ steps.old + 1 }
{
    let source = columns.source(arrow);
    if let Some(place) = added_place(change, source, name) {
        steps.tick();
        return image_at(change.added_images(arrow), place);
    }
    let rows = change.new_rows(arrow);
    if let Some(place) = place_of_entry(rows, name) {
        steps.tick();
        return value_at(rows, place);
    }
    columns.value(arrow, name, steps)
}

/// The cell of the attribute at the name: the one beside it where it was added, what is written beside it, or what the
/// columns hold.
pub fn cell_after<'a, L: Ledger>(
    columns: &'a Columns,
    change: &'a Change,
    attribute: AttrId,
    name: u32,
    steps: &mut Steps<L>,
) -> Option<&'a Atom>
    requires fits { FitsColumns columns.now change.now }
    requires attribute { attribute.0 < length columns.now.signature.attributes }
    requires name { Has (instance_after columns.now change.now) (holder_of columns.now.signature attribute.0) name }
    ensures cell { option_map (λ atom. atom.now) result ≡ (instance_after columns.now change.now).cell attribute.0 name }
    ensures ticks { steps.new ≡ steps.old + 1 }
{
    let holder = columns.holder(attribute);
    if let Some(place) = added_place(change, holder, name) {
        steps.tick();
        return atom_at(change.added_cells(attribute), place);
    }
    let cells = change.new_cells(attribute);
    if let Some(place) = place_of_entry(cells, name) {
        steps.tick();
        return cell_at(cells, place);
    }
    columns.cell(attribute, name, steps)
}

/// Where the name stands among the names of the object that come.
fn added_place(change: &Change, object: ObjectId, name: u32) -> Option<usize>
    requires object { object.0 < length change.now.added.names }
    requires ascend { ascends (list_at change.now.added.names object.0) ≡ true }
    ensures { result ≡ position (λ other. other == name) (list_at change.now.added.names object.0) }
{
    position_of(change.added_names(object), name)
}

/// Whether the object has the name: it has it already and keeps it, or it is added.
pub fn is_live_after(columns: &Columns, change: &Change, object: ObjectId, name: u32) -> bool
    requires fits { FitsColumns columns.now change.now }
    requires object { object.0 < columns.now.signature.objects }
    ensures { result ≡ list_any (λ other. other == name) ((instance_after columns.now change.now).names object.0) }
{
    stays(columns, change, object, name) || has_name(change.added_names(object), name)
}

/// Whether the object has the name already and keeps it.
fn stays(columns: &Columns, change: &Change, object: ObjectId, name: u32) -> bool
    requires fits { FitsColumns columns.now change.now }
    requires object { object.0 < columns.now.signature.objects }
    ensures { result ≡ (list_any (λ other. other == name) ((instance_of_columns columns.now).names object.0) && not (list_any (λ other. other == name) (list_at change.now.removed object.0))) }
{
    columns.is_live(object, name) && !has_name(change.removed_names(object), name)
}

/// The image at the place.
fn image_at(images: &[u32], place: usize) -> u32
    requires { place < length images.now }
    ensures { result ≡ slice_index images.now place }
{
    images[place]
}

/// The new value at the place.
fn value_at(rows: &[(u32, u32)], place: usize) -> u32
    requires { place < length rows.now }
    ensures { result ≡ (slice_index_or rows.now place (0, 0)).1 }
{
    rows[place].1
}

/// The atom at the place, or nothing where the cell is blank.
fn atom_at(cells: &[Option<Atom>], place: usize) -> Option<&Atom>
    requires { place < length cells.now }
    ensures { option_map (λ atom. atom.now) result ≡ slice_index_or cells.now place None }
{
    cells[place].as_ref()
}

/// The atom of the new cell at the place, or nothing where it is blank.
fn cell_at(entries: &[(u32, Option<Atom>)], place: usize) -> Option<&Atom>
    requires { place < length entries.now }
    ensures { option_map (λ atom. atom.now) result ≡ (slice_index_or entries.now place (0, None)).1 }
{
    entries[place].1.as_ref()
}
