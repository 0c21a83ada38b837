//! Whether lists have the lengths that a schema asks for.

ghost use Rattle.std.specs.Prelude.{◌≡◌, ◌<◌, ◌≤◌, true, length, map};
ghost use Rattle.std.specs.List.{list_all};
ghost use Rattle.rw_schema.specs.First.{all_in};
ghost use Rattle.rw_schema.specs.Presentation.{signature_of, ends_of_arrow, ends_of_attribute};
ghost use Rattle.rw_schema.specs.SchemaFaults.{has_ends, has_holder};
ghost use Rattle.rw_table.specs.TableFaults.{has_shape, has_length, has_cells};

use rw_schema::{ArrowDef, ArrowId, AttrDef, AttrId, Rows, Schema};

/// Whether there is a list for each object, arrow and attribute, an image for each name of an arrow's source, and a
/// cell for each name of an attribute's object.
pub fn are_shaped(schema: &Schema, rows: &Rows) -> bool
    ensures value { result ≡ has_shape (signature_of schema.now) rows.now }
    ensures few { result ≡ true → length rows.now.names ≤ 64 }
{
    let objects = schema.objects();
    let arrows = schema.arrow_list();
    let attributes = schema.attribute_list();
    rows.name_lists() == objects
        && rows.next_names() == objects
        && rows.row_lists() == arrows.len()
        && rows.cell_lists() == attributes.len()
        && are_rows_whole(rows, arrows)
        && are_cells_whole(rows, attributes)
}

/// Whether each row has one image for each name of its arrow's source.
fn are_rows_whole(rows: &Rows, arrows: &[ArrowDef]) -> bool
    requires few { length arrows.now ≤ 256 }
    requires ends { list_all (has_ends (length rows.now.names)) arrows.now ≡ true }
    requires rows { length rows.now.arrows ≡ length arrows.now }
    ensures { result ≡ all_in (has_length rows.now) 0 (map ends_of_arrow arrows.now) }
{
    for (place, arrow) in arrows.iter().enumerate() {
        if !is_row_whole(rows, ArrowId(place as u16), arrow) {
            return false;
        }
    }
    true
}

/// Whether the row has one image for each name of the arrow's source.
fn is_row_whole(rows: &Rows, place: ArrowId, arrow: &ArrowDef) -> bool
    requires source { arrow.now.source.0 < length rows.now.names }
    requires row { place.0 < length rows.now.arrows }
    ensures { result ≡ has_length rows.now place.0 (ends_of_arrow arrow.now) }
{
    rows.row(place).len() == rows.names(arrow.source).len()
}

/// Whether each attribute has one cell for each name of its object.
fn are_cells_whole(rows: &Rows, attributes: &[AttrDef]) -> bool
    requires few { length attributes.now ≤ 256 }
    requires holders { list_all (has_holder (length rows.now.names)) attributes.now ≡ true }
    requires cells { length rows.now.cells ≡ length attributes.now }
    ensures { result ≡ all_in (has_cells rows.now) 0 (map ends_of_attribute attributes.now) }
{
    for (place, attribute) in attributes.iter().enumerate() {
        if !has_whole_cells(rows, AttrId(place as u16), attribute) {
            return false;
        }
    }
    true
}

/// Whether the attribute has one cell for each name of its object.
fn has_whole_cells(rows: &Rows, place: AttrId, attribute: &AttrDef) -> bool
    requires holder { attribute.now.object.0 < length rows.now.names }
    requires cells { place.0 < length rows.now.cells }
    ensures { result ≡ has_cells rows.now place.0 (ends_of_attribute attribute.now) }
{
    rows.cells(place).len() == rows.names(attribute.object).len()
}
