//! The objects that a rule or a watch lists as monic.

ghost use Rattle.std.specs.Prelude.{◌≡◌, ◌==◌, IfOk, length, map, option_map};
ghost use Rattle.std.specs.List.{list_any};
ghost use Rattle.serde_json.specs.Find.{as_str};
ghost use Rattle.serde_json.specs.View.{view};
ghost use Rattle.rw_doc.specs.Chain.{all_some};
ghost use Rattle.rw_doc.specs.Gives.{Gives};
ghost use Rattle.rw_docpattern.specs.Objects as spec;

use rw_doc::{Piece, ReadDocEnd, items_of};
use rw_schema::{ObjectId, OutOfMemory, Schema, Text};
use serde_json::Value;
use std::alloc::Global;

/// A text of each item.
fn texts_of(alloc: Global, items: &[Value]) -> Result<Option<Vec<Text>>, OutOfMemory>
    ensures { IfOk result (λ texts. option_map (λ texts. texts.items) texts ≡ all_some as_str (map view items.now)) }
{
    let mut texts = Vec::new(alloc);
    for item in items {
        let Some(text) = item.as_str() else {
            return Ok(None);
        };
        texts.push(Text::of(alloc, text)?)?;
    }
    Ok(Some(texts))
}

/// The names that are written, no names where nothing is written, and nothing where something else is.
pub fn texts_or_none(alloc: Global, value: Option<&Value>) -> Result<Option<Vec<Text>>, OutOfMemory>
    ensures { IfOk result (λ texts. option_map (λ texts. texts.items) texts ≡ spec.texts_or_none (option_map (λ value. view value.now) value.entry)) }
{
    let Some(value) = value else {
        return Ok(Some(Vec::new(alloc)));
    };
    match items_of(value) {
        Some(items) => texts_of(alloc, items),
        None => Ok(None),
    }
}

/// The object with the name.
fn object_named(schema: &Schema, name: &Text) -> Option<ObjectId>
    ensures { result ≡ spec.object_named schema.now.objects name.now }
{
    schema.object_of(name.as_str())
}

/// An object of each name.
fn objects_named(
    alloc: Global,
    schema: &Schema,
    names: &[Text],
) -> Result<Option<Vec<ObjectId>>, OutOfMemory>
    ensures { IfOk result (λ objects. option_map (λ objects. objects.items) objects ≡ all_some (spec.object_named schema.now.objects) names.now) }
{
    let mut objects = Vec::new(alloc);
    for name in names {
        let Some(object) = object_named(schema, name) else {
            return Ok(None);
        };
        objects.push(object)?;
    }
    Ok(Some(objects))
}

/// Whether the object is listed.
fn is_listed(listed: &[ObjectId], object: usize) -> bool
    ensures { result ≡ list_any (λ other. other.0 == object) listed.now }
{
    listed.iter().any(|other| usize::from(other.0) == object)
}

/// Of each object whether it is listed.
fn marks_of(alloc: Global, objects: usize, listed: &[ObjectId]) -> Result<Vec<bool>, OutOfMemory>
    ensures { IfOk result (λ marks. marks.items ≡ spec.marks_of objects listed.now) }
{
    let mut marks = Vec::new(alloc);
    for object in 0..objects {
        marks.push(is_listed(listed, object))?;
    }
    Ok(marks)
}

/// Of each object whether its name is listed, or nothing where a name is none of an object's.
fn marks_named(
    alloc: Global,
    schema: &Schema,
    names: &[Text],
) -> Result<Option<Vec<bool>>, OutOfMemory>
    ensures { IfOk result (λ marks. option_map (λ marks. marks.items) marks ≡ spec.marks_named schema.now.objects names.now) }
{
    let Some(listed) = objects_named(alloc, schema, names)? else {
        return Ok(None);
    };
    let marks = marks_of(alloc, schema.objects(), listed.as_slice())?;
    Ok(Some(marks))
}

/// Of each object whether its name is listed, or the fault where a name is none of an object's.
pub fn read_monic(
    alloc: Global,
    schema: &Schema,
    piece: Piece,
    names: &[Text],
) -> Result<Vec<bool>, ReadDocEnd>
    ensures gives { Gives (λ marks. marks.items) result (spec.read_monic schema.now.objects piece names.now) }
    ensures long { IfOk result (λ marks. length marks.items ≡ length schema.now.objects) }
{
    match marks_named(alloc, schema, names)? {
        Some(marks) => Ok(marks),
        None => Err(piece.refused(6)),
    }
}
