//! The classes of the parts of both sides, object by object.

ghost use Rattle.std.specs.Prelude.{◌≡◌, ◌<◌, ◌≤◌, ◌+◌, ◌^◌, All, IfOk, length, slice_index, true};
ghost use Rattle.rw_schema.specs.RowLists.{list_at};
ghost use Rattle.rw_spec.specs.Ascending.{ascends};
ghost use Rattle.rw_classes.specs.Classes.{AreClasses};
ghost use Rattle.rw_classes.specs.Places.{spot};
ghost use Rattle.rw_classes.specs.ClassLists.{joined, number_lists, first_lists, AreJoinable, AreClassesBy};

use crate::classes::{Classes, join};
use crate::spots::spot_of;
use rw_schema::{ObjectId, OutOfMemory, PartMap, Rows};
use std::alloc::Global;

/// The classes of the parts of both sides of each object, where the two images of each part of the apex are joined.
pub fn class_lists(
    alloc: Global,
    objects: usize,
    left: &Rows,
    right: &Rows,
    f: &PartMap,
    g: &PartMap,
) -> Result<Vec<Classes>, OutOfMemory>
    requires few { objects ≤ 64 }
    requires joinable { AreJoinable objects left.now right.now f.now g.now }
    ensures lists { IfOk result (λ classes. length classes.items ≡ objects) }
    ensures classes { IfOk result (λ classes. AreClassesBy objects left.now right.now f.now g.now (number_lists classes.items) (first_lists classes.items)) }
{
    let mut classes = Vec::new(alloc);
    for place in 0..objects {
        let object = ObjectId(place as u16);
        classes.push(classes_of(
            alloc,
            left.names(object),
            right.names(object),
            f.images(object),
            g.images(object),
        )?)?;
    }
    Ok(classes)
}

/// The class of each part of the object.
pub fn numbers_at(classes: &[Classes], object: ObjectId) -> &[u32]
    requires { object.0 < length classes.now }
    ensures { result.now ≡ list_at (number_lists classes.now) object.0 }
{
    classes[object.0 as usize].numbers.as_slice()
}

/// The first part of each class of the object.
pub fn firsts_at(classes: &[Classes], object: ObjectId) -> &[u32]
    requires { object.0 < length classes.now }
    ensures { result.now ≡ list_at (first_lists classes.now) object.0 }
{
    classes[object.0 as usize].firsts.as_slice()
}

/// The classes of the parts of both sides of one object, whose names are these, where the two images of each part of the
/// apex are joined. Left parts are counted first.
fn classes_of(
    alloc: Global,
    left: &[u32],
    right: &[u32],
    left_images: &[u32],
    right_images: &[u32],
) -> Result<Classes, OutOfMemory>
    requires left { ascends left.now ≡ true }
    requires right { ascends right.now ≡ true }
    requires images { length right_images.now ≡ length left_images.now }
    requires few { length left.now + length right.now < 2 ^ 32 }
    requires within { All (λ pair. (pair.0 < length left.now + length right.now) × (pair.1 < length left.now + length right.now))
        (joined left.now right.now left_images.now right_images.now) }
    ensures { IfOk result (λ classes. AreClasses (length left.now + length right.now) (joined left.now right.now left_images.now right_images.now)
        classes.numbers.items classes.firsts.items) }
{
    let places = joined_places(alloc, left, right, left_images, right_images)?;
    let count = (left.len() + right.len()) as u32;
    join(alloc, count, places.as_slice())
}

/// Of each two images the places among the names of both sides.
fn joined_places(
    alloc: Global,
    left: &[u32],
    right: &[u32],
    left_images: &[u32],
    right_images: &[u32],
) -> Result<Vec<(u32, u32)>, OutOfMemory>
    requires left { ascends left.now ≡ true }
    requires right { ascends right.now ≡ true }
    requires images { length right_images.now ≡ length left_images.now }
    requires few { length left.now + length right.now < 2 ^ 32 }
    ensures { IfOk result (λ places. places.items ≡ joined left.now right.now left_images.now right_images.now) }
{
    let mut places = Vec::new(alloc);
    for (index, image) in left_images.iter().enumerate() {
        places.push(joined_place(left, right, *image, right_images[index]))?;
    }
    Ok(places)
}

/// The places of two images.
fn joined_place(left: &[u32], right: &[u32], left_image: u32, right_image: u32) -> (u32, u32)
    requires left { ascends left.now ≡ true }
    requires right { ascends right.now ≡ true }
    requires few { length left.now + length right.now < 2 ^ 32 }
    ensures { result ≡ (spot left.now left_image, length left.now + spot right.now right_image) }
{
    let first = spot_of(left, left_image);
    let second = left.len() + spot_of(right, right_image);
    (first as u32, second as u32)
}
