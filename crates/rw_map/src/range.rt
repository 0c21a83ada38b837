//! Whether each image is a name of the target.

ghost use Rattle.std.specs.Prelude.{◌≡◌, ◌==◌, ◌<◌, ◌≤◌, ◌^◌, true, length};
ghost use Rattle.std.specs.List.{list_any};
ghost use Rattle.rw_schema.specs.First.{first_in, fault_unless};
ghost use Rattle.rw_schema.specs.Presentation.{signature_of};
ghost use Rattle.rw_schema.specs.RowLists.{list_at};
ghost use Rattle.rw_spec.specs.Tabled.{IsOver, instance_of_table};
ghost use Rattle.rw_spec.specs.Ascending.{ascends};
ghost use Rattle.rw_map.specs.HomFaults.{image_fault, stray_image};
ghost use Rattle.rw_map.specs.Homs.{HasImages};
ghost use Rattle.rw_map.specs.declared.fault.HomFault.TheVariants.{Range};

use crate::HomFault;
use crate::look::{count_of, names_of};
use rw_schema::{ObjectId, PartMap, Schema};
use rw_table::{Table, has_name};

/// The first image that is no name of the target.
pub fn first_range_fault(schema: &Schema, x: &Table, y: &Table, map: &PartMap) -> Option<HomFault>
    requires x { IsOver schema.now x.now }
    requires y { IsOver schema.now y.now }
    requires shape { HasImages (signature_of schema.now) (instance_of_table x.now) map.now }
    ensures { result ≡ image_fault (signature_of schema.now) (instance_of_table y.now) map.now }
{
    for place in 0..schema.objects() {
        if let Some(fault) = first_stray(x, y, map, ObjectId(place as u16)) {
            return Some(fault);
        }
    }
    None
}

/// The first image of the object that is no name of the target.
fn first_stray(x: &Table, y: &Table, map: &PartMap, object: ObjectId) -> Option<HomFault>
    requires x { object.0 < x.now.signature.objects }
    requires y { object.0 < y.now.signature.objects }
    requires list { object.0 < length map.now }
    requires beside { length (list_at map.now object.0) ≡ length ((instance_of_table x.now).names object.0) }
    ensures { result ≡ stray_image (instance_of_table y.now) map.now object.0 }
{
    let images = map.images(object);
    let count = count_of(names_of(x, object));
    prove!(images.len() == count);
    stray_in(object, names_of(y, object), images)
}

/// The first image that is none of the names.
fn stray_in(object: ObjectId, names: &[u32], images: &[u32]) -> Option<HomFault>
    requires names { ascends names.now ≡ true }
    requires few { length images.now ≤ 2 ^ 32 }
    ensures { result ≡ first_in (λ position image. fault_unless (list_any (λ name. name == image) names.now) (Range object position)) 0 images.now }
{
    for (position, image) in images.iter().enumerate() {
        if !has_name(names, *image) {
            return Some(HomFault::Range {
                object,
                position: position as u32,
            });
        }
    }
    None
}
