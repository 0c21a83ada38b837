//! Whether what is written of an instance has the lengths that a schema asks for.

ghost use Rattle.std.specs.Prelude.{◌≡◌, ◌<◌, true, length, map};
ghost use Rattle.std.specs.List.{list_all};
ghost use Rattle.serde_json.specs.View.{view};
ghost use Rattle.rw_schema.specs.First.{all_in};
ghost use Rattle.rw_schema.specs.Presentation.{signature_of, ends_of_arrow, ends_of_attribute};
ghost use Rattle.rw_schema.specs.SchemaFaults.{has_ends, has_holder};
ghost use Rattle.rw_docspan.specs.Instances as spec;
ghost use Rattle.rw_docspan.specs.Views.{form_lists};

use crate::forms::Form;
use rw_schema::{ArrowDef, AttrDef, Schema};
use serde_json::Value;

/// Whether the row at the place has one image for each part of the arrow's source.
fn has_row_length(parts: &[u32], rows: &[Vec<u32>], place: usize, arrow: &ArrowDef) -> bool
    requires source { arrow.now.source.0 < length parts.now }
    requires row { place < length rows.now }
    ensures { result ≡ spec.has_row_length parts.now (map (λ row. row.items) rows.now) place (ends_of_arrow arrow.now) }
{
    rows[place].len() == parts[arrow.source.0 as usize] as usize
}

/// Whether each row has one image for each part of its arrow's source.
fn have_row_lengths(parts: &[u32], rows: &[Vec<u32>], arrows: &[ArrowDef]) -> bool
    requires ends { list_all (has_ends (length parts.now)) arrows.now ≡ true }
    requires rows { length rows.now ≡ length arrows.now }
    ensures { result ≡ all_in (spec.has_row_length parts.now (map (λ row. row.items) rows.now)) 0 (map ends_of_arrow arrows.now) }
{
    for (place, arrow) in arrows.iter().enumerate() {
        if !has_row_length(parts, rows, place, arrow) {
            return false;
        }
    }
    true
}

/// Whether the list at the place has one value for each part of the attribute's object.
fn has_cell_length(parts: &[u32], cells: &[&[Value]], place: usize, attribute: &AttrDef) -> bool
    requires holder { attribute.now.object.0 < length parts.now }
    requires cells { place < length cells.now }
    ensures { result ≡ spec.has_cell_length parts.now (map (λ list. map view list.now) cells.now) place (ends_of_attribute attribute.now) }
{
    cells[place].len() == parts[attribute.object.0 as usize] as usize
}

/// Whether each list has one value for each part of its attribute's object.
fn have_cell_lengths(parts: &[u32], cells: &[&[Value]], attributes: &[AttrDef]) -> bool
    requires holders { list_all (has_holder (length parts.now)) attributes.now ≡ true }
    requires cells { length cells.now ≡ length attributes.now }
    ensures { result ≡ all_in (spec.has_cell_length parts.now (map (λ list. map view list.now) cells.now)) 0 (map ends_of_attribute attributes.now) }
{
    for (place, attribute) in attributes.iter().enumerate() {
        if !has_cell_length(parts, cells, place, attribute) {
            return false;
        }
    }
    true
}

/// Whether there is a number for each object, a row of the right length for each arrow, and a list of the right length for
/// each attribute.
pub(crate) fn has_lengths(schema: &Schema, form: &Form<'_>) -> bool
    ensures value { result ≡ spec.has_lengths (signature_of schema.now) (form_lists form.now) }
    ensures parts { result ≡ true → length form.now.parts.items ≡ length schema.now.objects }
    ensures rows { result ≡ true → length form.now.rows.items ≡ length schema.now.arrows }
    ensures cells { result ≡ true → length form.now.cells.items ≡ length schema.now.attributes }
{
    let arrows = schema.arrow_list();
    let attributes = schema.attribute_list();
    let parts = form.parts.as_slice();
    let rows = form.rows.as_slice();
    let cells = form.cells.as_slice();
    parts.len() == schema.objects()
        && rows.len() == arrows.len()
        && cells.len() == attributes.len()
        && have_row_lengths(parts, rows, arrows)
        && have_cell_lengths(parts, cells, attributes)
}
