//! The objects of a schema.

ghost use Rattle.std.specs.Prelude.{◌≡◌, ◌<◌, ◌≤◌, [], IfOk, length, map, position};
ghost use Rattle.std.specs.List.{list_any};
ghost use Rattle.std.specs.Str.{bytes_eq};
ghost use Rattle.serde_json.specs.View.{view};
ghost use Rattle.rw_schema.specs.Limits.{most_objects};
ghost use Rattle.rw_schema.specs.SchemaFaults.{is_name};
ghost use Rattle.rw_doc.specs.Chain.{each_after};
ghost use Rattle.rw_doc.specs.Gives.{Gives};
ghost use Rattle.rw_doc.specs.Schemas as spec;

use crate::faults::refused_at;
use crate::lists::read_list;
use crate::{DocFault, ReadDocEnd};
use rw_schema::{LONGEST_NAME, MOST_OBJECTS, ObjectId, Section, Text};
use serde_json::Value;
use std::alloc::Global;

/// Whether the text has the length of a name.
pub fn has_name_length(name: &str) -> bool
    ensures { result ≡ is_name name.now }
{
    1 <= name.len() && name.len() <= LONGEST_NAME
}

/// Whether one of the objects has the name.
fn is_object(objects: &[Text], name: &str) -> bool
    ensures { result ≡ list_any (bytes_eq name.now) objects.now }
{
    objects.iter().any(|object| name == object.as_str())
}

/// The place of the first object with the name.
fn place_of(objects: &[Text], name: &str) -> Option<usize>
    ensures { result ≡ position (bytes_eq name.now) objects.now }
{
    objects.iter().position(|object| name == object.as_str())
}

/// The object with the name, or the fault.
pub(crate) fn object_named(
    fault: DocFault,
    objects: &[Text],
    name: &str,
) -> Result<ObjectId, ReadDocEnd>
    requires { length objects.now ≤ most_objects }
    ensures { Gives (λ object. object) result (spec.object_named fault objects.now name.now) }
{
    match place_of(objects, name) {
        Some(place) => Ok(ObjectId(place as u16)),
        None => Err(ReadDocEnd::Refused(fault)),
    }
}

/// The object that the value is, behind these.
fn read_object(alloc: Global, before: &[Text], value: &Value) -> Result<Text, ReadDocEnd>
    requires { length before.now < most_objects }
    ensures { Gives (λ object. object) result (spec.read_object before.now (view value.now)) }
{
    let place = before.len() as u32;
    let Some(name) = value.as_str() else {
        return Err(refused_at(2, Section::Objects, place, 0));
    };
    if !has_name_length(name) {
        return Err(refused_at(4, Section::Objects, place, 0));
    }
    if is_object(before, name) {
        return Err(refused_at(5, Section::Objects, place, 0));
    }
    Ok(Text::of(alloc, name)?)
}

/// The objects that the values are.
fn objects_of(alloc: Global, items: &[Value]) -> Result<Vec<Text>, ReadDocEnd>
    requires { length items.now ≤ most_objects }
    ensures gives { Gives (λ objects. objects.items) result (each_after spec.read_object [] (map view items.now)) }
    ensures few { IfOk result (λ objects. length objects.items ≤ most_objects) }
{
    let mut objects = Vec::new(alloc);
    for item in items {
        let object = read_object(alloc, objects.as_slice(), item)?;
        objects.push(object)?;
    }
    Ok(objects)
}

/// The objects of a schema.
pub(crate) fn read_objects(alloc: Global, value: &Value) -> Result<Vec<Text>, ReadDocEnd>
    ensures gives { Gives (λ objects. objects.items) result (spec.read_objects (view value.now)) }
    ensures few { IfOk result (λ objects. length objects.items ≤ most_objects) }
{
    let items = read_list(Section::Objects, MOST_OBJECTS, value)?;
    objects_of(alloc, items)
}
