//! Maps between patterns.

ghost use Rattle.std.specs.Prelude.{◌≡◌, ◌<◌, ◌≤◌, ◌==◌, ◌↔◌, IsTrue, true, None, length, map, nat_lt, slice_index};
ghost use Rattle.std.specs.Result.{is_ok};
ghost use Rattle.rw_schema.specs.First.{all_in, first_in, fault_unless};
ghost use Rattle.rw_schema.specs.Presentation.{signature_of, ends_of_arrow};
ghost use Rattle.rw_schema.specs.RowLists.{list_at};
ghost use Rattle.rw_spec.specs.Natural.{IsNatural};
ghost use Rattle.rw_pattern.specs.MapFaults.{ChecksMap, IsMapOf, has_images, has_map_shape, image_fault, image_of, square_fault};
ghost use Rattle.rw_pattern.specs.PatternFaults.{IsPatternOf};
ghost use Rattle.rw_pattern.specs.PatternLists.{size_of, instance_of_pattern};
ghost use Rattle.rw_pattern.specs.declared.map_fault.MapFault.TheVariants.{Range, NotNatural};

use crate::{MapFault, Pattern};
use rw_schema::{ArrowDef, ArrowId, ObjectId, PartMap, Schema};

/// Checks that the images are a map from the one pattern to the other: a natural transformation. Lists beyond the
/// objects are not looked at. It takes no memory.
pub fn check_map(
    schema: &Schema,
    from: &Pattern,
    to: &Pattern,
    images: &PartMap,
) -> Result<(), MapFault>
    requires from { IsPatternOf (signature_of schema.now) from.now }
    requires to { IsPatternOf (signature_of schema.now) to.now }
    ensures fault { ChecksMap (signature_of schema.now) from.now to.now images.now result }
    ensures exact { IsTrue (is_ok result) ↔ IsMapOf (signature_of schema.now) from.now to.now images.now }
{
    if !is_map_shaped(from, images) {
        return Err(MapFault::Shape);
    }
    if let Some(fault) = first_stray(from, to, images) {
        return Err(fault);
    }
    match first_square(schema, from, to, images) {
        Some(fault) => Err(fault),
        None => Ok(()),
    }
}

/// Whether there is a list for each object, with one image for each part.
fn is_map_shaped(from: &Pattern, images: &PartMap) -> bool
    ensures { result ≡ has_map_shape from.now images.now }
{
    from.sizes().len() <= images.lists() && have_images(from.sizes(), images)
}

/// Whether each list has one image for each part of its object.
fn have_images(sizes: &[u32], images: &PartMap) -> bool
    requires few { length sizes.now ≤ 64 }
    requires lists { length sizes.now ≤ length images.now }
    ensures { result ≡ all_in (has_images images.now) 0 sizes.now }
{
    for (object, size) in sizes.iter().enumerate() {
        if images.images(ObjectId(object as u16)).len() != *size as usize {
            return false;
        }
    }
    true
}

/// The first image that is no part of the other pattern.
fn first_stray(from: &Pattern, to: &Pattern, images: &PartMap) -> Option<MapFault>
    requires objects { length from.now.sizes ≡ length to.now.sizes }
    requires shape { has_map_shape from.now images.now ≡ true }
    ensures { result ≡ first_in (image_fault to.now images.now) 0 from.now.sizes }
{
    for (number, _) in from.sizes().iter().enumerate() {
        let object = ObjectId(number as u16);
        if let Some(fault) = stray_in(object, images.images(object), to.size(object)) {
            return Some(fault);
        }
    }
    None
}

/// The first image of the object that is not below the size.
fn stray_in(object: ObjectId, images: &[u32], size: u32) -> Option<MapFault>
    requires { length images.now ≤ 64 }
    ensures { result ≡ first_in (λ part image. fault_unless (nat_lt image size) (Range object part)) 0 images.now }
{
    for (part, image) in images.iter().enumerate() {
        if *image >= size {
            return Some(MapFault::Range {
                object,
                part: part as u32,
            });
        }
    }
    None
}

/// The first arrow and part at which the map does not commute.
fn first_square(schema: &Schema, from: &Pattern, to: &Pattern, images: &PartMap) -> Option<MapFault>
    requires from { IsPatternOf (signature_of schema.now) from.now }
    requires to { IsPatternOf (signature_of schema.now) to.now }
    requires shape { has_map_shape from.now images.now ≡ true }
    ensures { result ≡ first_in (square_fault from.now to.now images.now) 0 (map ends_of_arrow schema.now.arrows) }
{
    for (number, ends) in schema.arrow_list().iter().enumerate() {
        if let Some(fault) = square_at(ArrowId(number as u16), ends, from, to, images) {
            return Some(fault);
        }
    }
    None
}

/// The first part at which the map does not commute with the arrow.
fn square_at(
    arrow: ArrowId,
    ends: &ArrowDef,
    from: &Pattern,
    to: &Pattern,
    images: &PartMap,
) -> Option<MapFault>
    requires from { arrow.0 < length from.now.rows }
    requires to { arrow.0 < length to.now.rows }
    requires source { ends.now.source.0 < length images.now }
    requires target { ends.now.target.0 < length images.now }
    requires few { length (list_at from.now.rows arrow.0) ≤ 64 }
    ensures { result ≡ square_fault from.now to.now images.now arrow.0 (ends_of_arrow ends.now) }
{
    let values = from.row(arrow);
    let sources = images.images(ends.source);
    let targets = images.images(ends.target);
    unequal_in(arrow, values, sources, targets, to.row(arrow))
}

/// The first part whose value's image is not the value of its image.
fn unequal_in(
    arrow: ArrowId,
    values: &[u32],
    sources: &[u32],
    targets: &[u32],
    row: &[u32],
) -> Option<MapFault>
    requires { length values.now ≤ 64 }
    ensures { result ≡ first_in (λ part value. fault_unless (slice_index targets.now value == slice_index row.now (slice_index sources.now part)) (NotNatural arrow part)) 0 values.now }
{
    for (part, value) in values.iter().enumerate() {
        let part = part as u32;
        if entry_at(targets, *value) != entry_at(row, entry_at(sources, part)) {
            return Some(MapFault::NotNatural { arrow, part });
        }
    }
    None
}

/// The entry at a place, or 0 where none is there.
pub fn entry_at(list: &[u32], place: u32) -> u32
    ensures { result ≡ slice_index list.now place }
{
    list.get(place as usize).copied().unwrap_or(0)
}
