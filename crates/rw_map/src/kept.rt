//! Whether the map keeps each atom.

ghost use Rattle.std.specs.Prelude.{◌≡◌, ◌<◌, Some, length, map as mapped, slice_get, slice_index};
ghost use Rattle.std.specs.Option.{option_map};
ghost use Rattle.rw_schema.specs.First.{first_in};
ghost use Rattle.rw_schema.specs.Presentation.{signature_of, ends_of_attribute};
ghost use Rattle.rw_spec.specs.Homomorphism.{map_of};
ghost use Rattle.rw_spec.specs.Tabled.{IsOver, instance_of_table};
ghost use Rattle.rw_map.specs.HomFaults.{goes_to as is_kept, keeps_at as is_kept_at, lost_cell};
ghost use Rattle.rw_map.specs.Homs.{HasImages};

use crate::HomFault;
use crate::look::{count_of, names_of};
use rw_schema::{Atom, AttrDef, AttrId, PartMap, Schema};
use rw_table::Table;

/// The first attribute and part of which the map does not keep the atom.
pub fn first_cell_fault(schema: &Schema, x: &Table, y: &Table, map: &PartMap) -> Option<HomFault>
    requires x { IsOver schema.now x.now }
    requires y { IsOver schema.now y.now }
    requires shape { HasImages (signature_of schema.now) (instance_of_table x.now) map.now }
    ensures { result ≡ first_in (lost_cell (instance_of_table x.now) (instance_of_table y.now) (map_of (instance_of_table x.now) map.now)) 0 (mapped ends_of_attribute schema.now.attributes) }
{
    for (place, ends) in schema.attribute_list().iter().enumerate() {
        if let Some(fault) = first_lost(AttrId(place as u16), ends, x, y, map) {
            return Some(fault);
        }
    }
    None
}

/// The first part of which the map does not keep the atom of the attribute.
fn first_lost(
    attribute: AttrId,
    ends: &AttrDef,
    x: &Table,
    y: &Table,
    map: &PartMap,
) -> Option<HomFault>
    requires x { slice_get x.now.signature.attributes attribute.0 ≡ Some (ends_of_attribute ends.now) }
    requires y { slice_get y.now.signature.attributes attribute.0 ≡ Some (ends_of_attribute ends.now) }
    requires shape { HasImages x.now.signature (instance_of_table x.now) map.now }
    requires holder { ends.now.object.0 < x.now.signature.objects }
    ensures { result ≡ lost_cell (instance_of_table x.now) (instance_of_table y.now) (map_of (instance_of_table x.now) map.now) attribute.0 (ends_of_attribute ends.now) }
{
    for position in 0..count_of(names_of(x, ends.object)) {
        if !keeps_at(attribute, ends, x, y, map, position) {
            return Some(HomFault::Cell {
                attr: attribute,
                part: position as u32,
            });
        }
    }
    None
}

/// Whether the map keeps the cell of the attribute at the part.
fn keeps_at(
    attribute: AttrId,
    ends: &AttrDef,
    x: &Table,
    y: &Table,
    map: &PartMap,
    position: usize,
) -> bool
    requires x { slice_get x.now.signature.attributes attribute.0 ≡ Some (ends_of_attribute ends.now) }
    requires y { slice_get y.now.signature.attributes attribute.0 ≡ Some (ends_of_attribute ends.now) }
    requires shape { HasImages x.now.signature (instance_of_table x.now) map.now }
    requires holder { ends.now.object.0 < x.now.signature.objects }
    requires position { position < length ((instance_of_table x.now).names ends.now.object.0) }
    ensures { result ≡ is_kept_at (instance_of_table x.now) (instance_of_table y.now) (map_of (instance_of_table x.now) map.now) attribute.0 (ends_of_attribute ends.now)
        (slice_index ((instance_of_table x.now).names ends.now.object.0) position) }
{
    let image = map.image(ends.object, position);
    goes_to(
        &x.rows().cells(attribute)[position],
        y.atom(attribute, image),
    )
}

/// Whether the cell is blank, or its atom is the one of the image.
fn goes_to(cell: &Option<Atom>, image: Option<&Atom>) -> bool
    ensures { result ≡ is_kept cell.now (option_map (λ atom. atom.now) image.entry) }
{
    match cell {
        Some(atom) => atom.is_in(image),
        None => true,
    }
}
