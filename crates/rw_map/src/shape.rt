//! Whether there is one image for each part.

ghost use Rattle.std.specs.Prelude.{◌≡◌, ◌<◌};
ghost use Rattle.rw_schema.specs.Presentation.{signature_of};
ghost use Rattle.rw_spec.specs.Tabled.{IsOver, instance_of_table};
ghost use Rattle.rw_map.specs.HomFaults.{has_images as has_image_list, shape_fault};

use crate::HomFault;
use crate::look::names_of;
use rw_schema::{ObjectId, PartMap, Schema};
use rw_table::Table;

/// The first object without one image for each part.
pub fn first_shape_fault(schema: &Schema, x: &Table, map: &PartMap) -> Option<HomFault>
    requires { IsOver schema.now x.now }
    ensures { result ≡ shape_fault (signature_of schema.now) (instance_of_table x.now) map.now }
{
    for place in 0..schema.objects() {
        let object = ObjectId(place as u16);
        if !has_images(x, map, object) {
            return Some(HomFault::Shape { object });
        }
    }
    None
}

/// Whether there is a list for the object, with one image for each part.
fn has_images(x: &Table, map: &PartMap, object: ObjectId) -> bool
    requires { object.0 < x.now.signature.objects }
    ensures { result ≡ has_image_list (instance_of_table x.now) map.now object.0 }
{
    (object.0 as usize) < map.lists() && map.images(object).len() == names_of(x, object).len()
}
