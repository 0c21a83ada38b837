//! Whether the images and the entries of a pattern are on parts that are there.

ghost use Rattle.std.specs.Prelude.{◌≡◌, ◌<◌, true, All, length, map, nat_lt};
ghost use Rattle.std.specs.List.{list_all};
ghost use Rattle.rw_schema.specs.First.{all_in};
ghost use Rattle.rw_schema.specs.Presentation.{signature_of, ends_of_arrow};
ghost use Rattle.rw_schema.specs.Signature.{IsCategory};
ghost use Rattle.rw_pattern.specs.PatternFaults.{has_part as stands_on_part, has_shape, is_in_range, are_in_range as all_in_range};
ghost use Rattle.rw_pattern.specs.PatternLists.{holders_in};

use crate::{Pattern, PatternCell};
use rw_schema::{ArrowId, Schema};

/// Whether each image of a row and each entry's part is there.
pub fn are_in_range(schema: &Schema, pattern: &Pattern) -> bool
    requires shape { has_shape (signature_of schema.now) pattern.now ≡ true }
    requires holders { pattern.now.holders ≡ holders_in (signature_of schema.now) }
    requires attributes { All (λ entry. entry.attr.0 < length schema.now.attributes) pattern.now.cells }
    ensures value { result ≡ all_in_range (signature_of schema.now) pattern.now }
    ensures category { IsCategory (signature_of schema.now) }
{
    have_images(schema, pattern) && have_parts(schema, pattern)
}

/// Whether each image of each row is a part of the arrow's target.
fn have_images(schema: &Schema, pattern: &Pattern) -> bool
    requires { has_shape (signature_of schema.now) pattern.now ≡ true }
    ensures value { result ≡ all_in (is_in_range pattern.now) 0 (map ends_of_arrow schema.now.arrows) }
    ensures category { IsCategory (signature_of schema.now) }
{
    for (number, arrow) in schema.arrow_list().iter().enumerate() {
        if !are_below(
            pattern.row(ArrowId(number as u16)),
            pattern.size(arrow.target),
        ) {
            return false;
        }
    }
    true
}

/// Whether each image of the row is below the size.
fn are_below(row: &[u32], size: u32) -> bool
    ensures { result ≡ list_all (λ image. nat_lt image size) row.now }
{
    row.iter().all(|image| *image < size)
}

/// Whether each entry stands on a part of its attribute's object.
fn have_parts(schema: &Schema, pattern: &Pattern) -> bool
    requires shape { has_shape (signature_of schema.now) pattern.now ≡ true }
    requires holders { pattern.now.holders ≡ holders_in (signature_of schema.now) }
    requires attributes { All (λ entry. entry.attr.0 < length schema.now.attributes) pattern.now.cells }
    ensures { result ≡ list_all (stands_on_part pattern.now) pattern.now.cells }
{
    for entry in pattern.cells() {
        if !has_part(schema, pattern, entry) {
            return false;
        }
    }
    true
}

/// Whether the entry stands on a part of its attribute's object.
fn has_part(schema: &Schema, pattern: &Pattern, entry: &PatternCell) -> bool
    requires shape { has_shape (signature_of schema.now) pattern.now ≡ true }
    requires holders { pattern.now.holders ≡ holders_in (signature_of schema.now) }
    requires attribute { entry.now.attr.0 < length schema.now.attributes }
    ensures { result ≡ stands_on_part pattern.now entry.now }
{
    let object = schema.attr(entry.attr).object;
    entry.part < pattern.size(object)
}
