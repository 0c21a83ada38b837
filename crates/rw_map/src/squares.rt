//! Whether the map commutes with each arrow.

ghost use Rattle.std.specs.Prelude.{◌≡◌, ◌<◌, Some, length, map as mapped, slice_get, slice_index};
ghost use Rattle.rw_schema.specs.First.{first_in};
ghost use Rattle.rw_schema.specs.Presentation.{signature_of, ends_of_arrow};
ghost use Rattle.rw_spec.specs.Homomorphism.{map_of};
ghost use Rattle.rw_spec.specs.Tabled.{IsOver, instance_of_table};
ghost use Rattle.rw_map.specs.HomFaults.{commutes_at as is_square, square_fault};
ghost use Rattle.rw_map.specs.Homs.{HasImages};

use crate::HomFault;
use crate::look::{count_of, image_of, names_of, value_of};
use rw_schema::{ArrowDef, ArrowId, PartMap, Schema};
use rw_table::Table;

/// The first arrow and part at which the map does not commute.
pub fn first_square_fault(schema: &Schema, x: &Table, y: &Table, map: &PartMap) -> Option<HomFault>
    requires x { IsOver schema.now x.now }
    requires y { IsOver schema.now y.now }
    requires shape { HasImages (signature_of schema.now) (instance_of_table x.now) map.now }
    ensures { result ≡ first_in (square_fault (instance_of_table x.now) (instance_of_table y.now) (map_of (instance_of_table x.now) map.now)) 0 (mapped ends_of_arrow schema.now.arrows) }
{
    for (place, ends) in schema.arrow_list().iter().enumerate() {
        if let Some(fault) = first_not_commuting(ArrowId(place as u16), ends, x, y, map) {
            return Some(fault);
        }
    }
    None
}

/// The first part at which the map does not commute with the arrow.
fn first_not_commuting(
    arrow: ArrowId,
    ends: &ArrowDef,
    x: &Table,
    y: &Table,
    map: &PartMap,
) -> Option<HomFault>
    requires x { slice_get x.now.signature.arrows arrow.0 ≡ Some (ends_of_arrow ends.now) }
    requires y { slice_get y.now.signature.arrows arrow.0 ≡ Some (ends_of_arrow ends.now) }
    requires shape { HasImages x.now.signature (instance_of_table x.now) map.now }
    requires source { ends.now.source.0 < x.now.signature.objects }
    requires target { ends.now.target.0 < x.now.signature.objects }
    ensures { result ≡ square_fault (instance_of_table x.now) (instance_of_table y.now) (map_of (instance_of_table x.now) map.now) arrow.0 (ends_of_arrow ends.now) }
{
    for position in 0..count_of(names_of(x, ends.source)) {
        if !commutes_at(arrow, ends, x, y, map, position) {
            return Some(HomFault::NotNatural {
                arrow,
                part: position as u32,
            });
        }
    }
    None
}

/// Whether the map commutes with the arrow at the part.
fn commutes_at(
    arrow: ArrowId,
    ends: &ArrowDef,
    x: &Table,
    y: &Table,
    map: &PartMap,
    position: usize,
) -> bool
    requires x { slice_get x.now.signature.arrows arrow.0 ≡ Some (ends_of_arrow ends.now) }
    requires y { slice_get y.now.signature.arrows arrow.0 ≡ Some (ends_of_arrow ends.now) }
    requires shape { HasImages x.now.signature (instance_of_table x.now) map.now }
    requires source { ends.now.source.0 < x.now.signature.objects }
    requires target { ends.now.target.0 < x.now.signature.objects }
    requires position { position < length ((instance_of_table x.now).names ends.now.source.0) }
    ensures { result ≡ is_square (instance_of_table x.now) (instance_of_table y.now) (map_of (instance_of_table x.now) map.now) arrow.0 (ends_of_arrow ends.now)
        (slice_index ((instance_of_table x.now).names ends.now.source.0) position) }
{
    let value = x.rows().row(arrow)[position];
    let image = map.image(ends.source, position);
    image_of(x, map, ends.target, value) == value_of(y, arrow, image)
}
