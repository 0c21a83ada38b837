//! The images of a condition's map.

ghost use Rattle.std.specs.Prelude.{◌≡◌, ◌<◌, ◌≤◌, ◌^◌, length, nat_lt, slice_index};
ghost use Rattle.std.specs.List.{list_all};
ghost use Rattle.rw_schema.specs.Presentation.{signature_of};
ghost use Rattle.rw_schema.specs.First.{all_in};
ghost use Rattle.rw_pattern.specs.MapFaults.{has_images, has_map_shape};
ghost use Rattle.rw_doc.specs.Gives.{Gives};
ghost use Rattle.rw_doccondition.specs.Images as spec;

use rw_doc::{Piece, ReadDocEnd};
use rw_pattern::Pattern;
use rw_schema::{ObjectId, PartMap, Schema};

/// Whether each object has one image for each part of the left side.
fn have_images(sizes: &[u32], images: &PartMap) -> bool
    requires few { length sizes.now ≤ 64 }
    requires lists { length sizes.now ≤ length images.now }
    ensures { result ≡ all_in (has_images images.now) 0 sizes.now }
{
    for (object, size) in sizes.iter().enumerate() {
        if images.images(ObjectId(object as u16)).len() != *size as usize {
            return false;
        }
    }
    true
}

/// Whether there is one list for each object, with one image for each part of the left side.
fn has_lists(schema: &Schema, left: &Pattern, images: &PartMap) -> bool
    ensures { result ≡ spec.has_lists (signature_of schema.now) left.now images.now }
{
    images.lists() == schema.objects()
        && left.sizes().len() <= images.lists()
        && have_images(left.sizes(), images)
}

/// The number at a place, or 0 where none is there.
fn size_at(sizes: &[u32], place: usize) -> u32
    ensures { result ≡ slice_index sizes.now place }
{
    sizes.get(place).copied().unwrap_or(0)
}

/// Whether each number is below the bound.
fn are_all_below(numbers: &[u32], bound: u32) -> bool
    ensures { result ≡ list_all (λ number. nat_lt number bound) numbers.now }
{
    numbers.iter().all(|number| *number < bound)
}

/// Whether each image of the object's parts is a part, where objects have these numbers of parts.
fn are_below(sizes: &[u32], images: &PartMap, object: usize) -> bool
    requires few { object < 2 ^ 16 }
    requires there { object < length images.now }
    ensures { result ≡ spec.are_below sizes.now images.now object }
{
    are_all_below(
        images.images(ObjectId(object as u16)),
        size_at(sizes, object),
    )
}

/// Whether each image is a part, where objects have these numbers of parts.
fn are_images_there(sizes: &[u32], left: &[u32], images: &PartMap) -> bool
    requires few { length left.now ≤ 64 }
    requires lists { length left.now ≤ length images.now }
    ensures { result ≡ all_in (λ object size. spec.are_below sizes.now images.now object) 0 left.now }
{
    for (object, _) in left.iter().enumerate() {
        if !are_below(sizes, images, object) {
            return false;
        }
    }
    true
}

/// The images of the left side's parts, where objects have these numbers of parts.
pub(crate) fn read_images(
    schema: &Schema,
    piece: Piece,
    left: &Pattern,
    sizes: &[u32],
    images: PartMap,
) -> Result<PartMap, ReadDocEnd>
    ensures { Gives (λ images. images) result (spec.read_images (signature_of schema.now) piece left.now sizes.now images) }
{
    if !has_lists(schema, left, &images) {
        return Err(piece.refused(2));
    }
    if !are_images_there(sizes, left.sizes(), &images) {
        return Err(piece.refused(8));
    }
    Ok(images)
}
