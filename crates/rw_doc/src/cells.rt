//! The cells of an instance's parts.

ghost use Rattle.std.specs.Prelude.{◌≡◌, ◌<◌, ◌≤◌, IfOk, length, map, option_map, slice_get, slice_index};
ghost use Rattle.std.specs.List.{All};
ghost use Rattle.serde_json.specs.View.{view};
ghost use Rattle.rw_schema.specs.Limits.{most_attributes};
ghost use Rattle.rw_schema.specs.Presentation.{signature_of};
ghost use Rattle.rw_schema.specs.Signature.{holder_of};
ghost use Rattle.rw_doc.specs.Chain.{each_in};
ghost use Rattle.rw_doc.specs.Gives.{Gives};
ghost use Rattle.rw_doc.specs.Instances as spec;
ghost use Rattle.rw_doc.specs.Limits.{most_parts};
ghost use Rattle.rw_doc.specs.Json.{is_short};

use crate::ReadDocEnd;
use crate::faults::{fault_at, fault_of, refused_at};
use crate::json::atom_of;
use crate::limits::LONGEST_TEXT;
use crate::lists::{items_of, with_length};
use rw_schema::{Atom, AttrId, Schema, Section};
use serde_json::Value;
use std::alloc::Global;

/// The number of the parts of the attribute's object.
fn holder_parts(schema: &Schema, parts: &[u32], attribute: AttrId) -> u32
    requires attribute { attribute.0 < length schema.now.attributes }
    requires parts { length parts.now ≡ length schema.now.objects }
    ensures { result ≡ slice_index parts.now (holder_of (signature_of schema.now) attribute.0) }
{
    parts[schema.attr(attribute).object.0 as usize]
}

/// Whether the atom is no text that is too long.
pub fn has_text_length(atom: &Atom) -> bool
    ensures { result ≡ is_short atom.now }
{
    match atom {
        Atom::Text(text) => text.len() <= LONGEST_TEXT,
        Atom::Int(_) | Atom::Bool(_) => true,
    }
}

/// Whether the atom is of the attribute's kind.
fn has_kind(schema: &Schema, attribute: AttrId, atom: &Atom) -> bool
    requires { attribute.0 < length schema.now.attributes }
    ensures { result ≡ spec.is_of_attribute (slice_get (signature_of schema.now).attributes attribute.0) atom.now }
{
    atom.is_of(schema.attr(attribute).kind)
}

/// The cell that the value is, at a position of an attribute's list.
fn read_cell(
    alloc: Global,
    schema: &Schema,
    blanks: bool,
    attribute: AttrId,
    position: u32,
    value: &Value,
) -> Result<Option<Atom>, ReadDocEnd>
    requires { attribute.0 < length schema.now.attributes }
    ensures { Gives (λ cell. cell) result (spec.read_cell (signature_of schema.now) blanks attribute.0 position (view value.now)) }
{
    let place = attribute.0 as u32;
    if value.is_null() {
        if blanks {
            return Ok(None);
        }
        return Err(refused_at(9, Section::Cells, place, position));
    }
    let Some(atom) = atom_of(alloc, value)? else {
        return Err(refused_at(9, Section::Cells, place, position));
    };
    if !has_text_length(&atom) {
        return Err(refused_at(4, Section::Cells, place, position));
    }
    if !has_kind(schema, attribute, &atom) {
        return Err(refused_at(9, Section::Cells, place, position));
    }
    Ok(Some(atom))
}

/// The cells that the values are.
fn cells_of(
    alloc: Global,
    schema: &Schema,
    blanks: bool,
    attribute: AttrId,
    items: &[Value],
) -> Result<Vec<Option<Atom>>, ReadDocEnd>
    requires attribute { attribute.0 < length schema.now.attributes }
    requires items { length items.now ≤ most_parts }
    ensures { Gives (λ cells. cells.items) result (each_in (spec.read_cell (signature_of schema.now) blanks attribute.0) 0 (map view items.now)) }
{
    let mut cells = Vec::new(alloc);
    for (position, item) in items.iter().enumerate() {
        let cell = read_cell(alloc, schema, blanks, attribute, position as u32, item)?;
        cells.push(cell)?;
    }
    Ok(cells)
}

/// The cells of the attribute, one for each part of its object.
fn read_cell_list(
    alloc: Global,
    schema: &Schema,
    blanks: bool,
    parts: &[u32],
    attribute: AttrId,
    value: &Value,
) -> Result<Vec<Option<Atom>>, ReadDocEnd>
    requires attribute { attribute.0 < length schema.now.attributes }
    requires parts { length parts.now ≡ length schema.now.objects }
    requires few { All (λ count. count ≤ most_parts) parts.now }
    ensures { Gives (λ cells. cells.items) result (spec.read_cell_list (signature_of schema.now) blanks parts.now attribute.0 (view value.now)) }
{
    let count = holder_parts(schema, parts, attribute);
    let fault = fault_at(2, Section::Cells, attribute.0 as u32, 0);
    let items = with_length(fault, count as usize, items_of(value))?;
    cells_of(alloc, schema, blanks, attribute, items)
}

/// The list of cells that each value is.
fn cell_lists(
    alloc: Global,
    schema: &Schema,
    blanks: bool,
    parts: &[u32],
    items: &[Value],
) -> Result<Vec<Vec<Option<Atom>>>, ReadDocEnd>
    requires items { length items.now ≡ length schema.now.attributes }
    requires attributes { length schema.now.attributes ≤ most_attributes }
    requires parts { length parts.now ≡ length schema.now.objects }
    requires few { All (λ count. count ≤ most_parts) parts.now }
    ensures { Gives (λ lists. map (λ list. list.items) lists.items) result (each_in (spec.read_cell_list (signature_of schema.now) blanks parts.now) 0 (map view items.now)) }
{
    let mut lists = Vec::new(alloc);
    for (attribute, item) in items.iter().enumerate() {
        let list = read_cell_list(alloc, schema, blanks, parts, AttrId(attribute as u16), item)?;
        lists.push(list)?;
    }
    Ok(lists)
}

/// The lists of cells that are written; where none are there is no list.
fn lists_or_none(value: Option<&Value>) -> Option<&[Value]>
    ensures { option_map (λ items. map view items.now) result ≡ spec.lists_or_none (option_map (λ value. view value.now) value.entry) }
{
    match value {
        Some(value) => items_of(value),
        None => Some(&[]),
    }
}

/// Of each attribute the cells of the parts of its object.
pub(crate) fn read_cells(
    alloc: Global,
    schema: &Schema,
    blanks: bool,
    parts: &[u32],
    value: Option<&Value>,
) -> Result<Vec<Vec<Option<Atom>>>, ReadDocEnd>
    requires parts { length parts.now ≡ length schema.now.objects }
    requires few { All (λ count. count ≤ most_parts) parts.now }
    ensures { Gives (λ lists. map (λ list. list.items) lists.items) result
        (spec.read_cells (signature_of schema.now) blanks parts.now (option_map (λ value. view value.now) value.entry)) }
{
    let fault = fault_of(2, Section::Cells);
    let items = with_length(fault, schema.attributes(), lists_or_none(value))?;
    cell_lists(alloc, schema, blanks, parts, items)
}
