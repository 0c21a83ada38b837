//! Maps one after the other.

ghost use Rattle.std.specs.Prelude.{◌≡◌, ◌<◌, IfOk, length, map as mapped};
ghost use Rattle.rw_schema.specs.RowLists.{list_at};
ghost use Rattle.rw_spec.specs.Homomorphism.{IsHomomorphism, after, map_of};
ghost use Rattle.rw_spec.specs.Instance.{Instance};
ghost use Rattle.rw_spec.specs.Natural.{SameOn};
ghost use Rattle.rw_spec.specs.Tabled.{instance_of_table};
ghost use Rattle.rw_map.specs.Homs.{HasImages, IsMap, IsHom, composite};

use crate::look::image_of;
use rw_schema::{ObjectId, OutOfMemory, PartMap};
use rw_table::Table;
use std::alloc::Global;

/// The map g after f, where f maps x to y and g has an image for each part of y. The time is that of a look-up for
/// each part of x.
pub fn compose(
    alloc: Global,
    x: &Table,
    y: &Table,
    f: &PartMap,
    g: &PartMap,
) -> Result<PartMap, OutOfMemory>
    requires schema { x.now.signature ≡ y.now.signature }
    requires f { IsMap x.now.signature (instance_of_table x.now) (instance_of_table y.now) f.now }
    requires g { HasImages x.now.signature (instance_of_table y.now) g.now }
    ensures lists { IfOk result (λ h. h ≡ composite x.now.signature (instance_of_table y.now) f.now g.now) }
    ensures after { IfOk result (λ h. SameOn x.now.signature (instance_of_table x.now) (map_of (instance_of_table x.now) h) (after (map_of (instance_of_table y.now) g.now) (map_of (instance_of_table x.now) f.now))) }
    ensures homomorphism { IfOk result (λ h. (Z : Instance)
        → IsHomomorphism x.now.signature (instance_of_table x.now) (instance_of_table y.now) (map_of (instance_of_table x.now) f.now)
        → IsHomomorphism x.now.signature (instance_of_table y.now) Z (map_of (instance_of_table y.now) g.now)
        → IsHom x.now.signature (instance_of_table x.now) Z h) }
{
    let objects = x.rows().name_lists() as u16;
    let mut lists = Vec::new(alloc);
    for number in 0..objects {
        let object = ObjectId(number);
        lists.push(images_under(alloc, y, g, object, f.images(object))?)?;
    }
    Ok(PartMap::from_lists(lists))
}

/// The images of the names under the map of the object.
fn images_under(
    alloc: Global,
    y: &Table,
    map: &PartMap,
    object: ObjectId,
    names: &[u32],
) -> Result<Vec<u32>, OutOfMemory>
    requires object { object.0 < y.now.signature.objects }
    requires list { object.0 < length map.now }
    requires beside { length (list_at map.now object.0) ≡ length ((instance_of_table y.now).names object.0) }
    ensures { IfOk result (λ images. images.items ≡ mapped (map_of (instance_of_table y.now) map.now object.0) names.now) }
{
    let mut images = Vec::new(alloc);
    for name in names {
        images.push(image_of(y, map, object, *name))?;
    }
    Ok(images)
}
