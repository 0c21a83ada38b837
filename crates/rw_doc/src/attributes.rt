//! The attributes of a schema.

ghost use Rattle.std.specs.Prelude.{◌≡◌, ◌<◌, ◌≤◌, [], IfOk, length, map, option_map, option_and_then};
ghost use Rattle.std.specs.List.{list_any};
ghost use Rattle.std.specs.Str.{bytes_eq};
ghost use Rattle.serde_json.specs.Find.{as_str};
ghost use Rattle.serde_json.specs.View.{view};
ghost use Rattle.rw_schema.specs.Limits.{most_objects, most_attributes};
ghost use Rattle.rw_doc.specs.Chain.{each_after};
ghost use Rattle.rw_doc.specs.Gives.{Gives};
ghost use Rattle.rw_doc.specs.Json.{as_list};
ghost use Rattle.rw_doc.specs.Schemas as spec;
ghost use Rattle.rw_doc.specs.Texts.{texts_of_attribute};

use crate::ReadDocEnd;
use crate::faults::{fault_at, refused_at};
use crate::lists::{items_of, read_list_or_none};
use crate::objects::{has_name_length, object_named};
use rw_schema::{AttrDef, Kind, MOST_ATTRIBUTES, Section, Text};
use serde_json::Value;
use std::alloc::Global;

/// The texts that an attribute is written in, the last of them read as a kind.
#[derive(Clone, Copy)]
struct AttributeTexts<'v> {
    name: &'v str,
    object: &'v str,
    kind: Kind,
}

/// The kind with the name.
fn kind_named(name: &str) -> Option<Kind>
    ensures { result ≡ spec.kind_named name.now }
{
    match name {
        "int" => Some(Kind::Int),
        "text" => Some(Kind::Text),
        "bool" => Some(Kind::Bool),
        _ => None,
    }
}

/// The kind that the value names.
fn kind_of(value: &Value) -> Option<Kind>
    ensures { result ≡ option_and_then spec.kind_named (as_str (view value.now)) }
{
    kind_named(value.as_str()?)
}

/// The name, the object and the kind that the items are.
fn texts_in(items: &[Value]) -> Option<AttributeTexts<'_>>
    ensures { option_map texts_of_attribute result ≡ spec.attribute_texts (map view items.now) }
{
    let [name, object, kind] = items else {
        return None;
    };
    let name = name.as_str()?;
    let object = object.as_str()?;
    let kind = kind_of(kind)?;
    Some(AttributeTexts { name, object, kind })
}

/// The name, the object and the kind that the value lists.
fn attribute_texts(value: &Value) -> Option<AttributeTexts<'_>>
    ensures { option_map texts_of_attribute result ≡ option_and_then spec.attribute_texts (as_list (view value.now)) }
{
    texts_in(items_of(value)?)
}

/// Whether one of the attributes has the name.
fn is_attribute(attributes: &[AttrDef], name: &str) -> bool
    ensures { result ≡ list_any (λ attribute. bytes_eq name.now attribute.name) attributes.now }
{
    attributes
        .iter()
        .any(|attribute| name == attribute.name.as_str())
}

/// The attribute that the value is, behind these.
fn read_attribute(
    alloc: Global,
    objects: &[Text],
    before: &[AttrDef],
    value: &Value,
) -> Result<AttrDef, ReadDocEnd>
    requires objects { length objects.now ≤ most_objects }
    requires before { length before.now < most_attributes }
    ensures { Gives (λ attribute. attribute) result (spec.read_attribute objects.now before.now (view value.now)) }
{
    let place = before.len() as u32;
    let Some(texts) = attribute_texts(value) else {
        return Err(refused_at(2, Section::Attributes, place, 0));
    };
    if !has_name_length(texts.name) {
        return Err(refused_at(4, Section::Attributes, place, 0));
    }
    if is_attribute(before, texts.name) {
        return Err(refused_at(5, Section::Attributes, place, 0));
    }
    let unknown = fault_at(6, Section::Attributes, place, 0);
    let object = object_named(unknown, objects, texts.object)?;
    let name = Text::of(alloc, texts.name)?;
    Ok(AttrDef {
        name,
        object,
        kind: texts.kind,
    })
}

/// The attributes that the values are.
fn attributes_of(
    alloc: Global,
    objects: &[Text],
    items: &[Value],
) -> Result<Vec<AttrDef>, ReadDocEnd>
    requires objects { length objects.now ≤ most_objects }
    requires items { length items.now ≤ most_attributes }
    ensures { Gives (λ attributes. attributes.items) result (each_after (spec.read_attribute objects.now) [] (map view items.now)) }
{
    let mut attributes = Vec::new(alloc);
    for item in items {
        let attribute = read_attribute(alloc, objects, attributes.as_slice(), item)?;
        attributes.push(attribute)?;
    }
    Ok(attributes)
}

/// The attributes of a schema, which has none where they are not written.
pub(crate) fn read_attributes(
    alloc: Global,
    objects: &[Text],
    value: Option<&Value>,
) -> Result<Vec<AttrDef>, ReadDocEnd>
    requires { length objects.now ≤ most_objects }
    ensures { Gives (λ attributes. attributes.items) result (spec.read_attributes objects.now (option_map (λ value. view value.now) value.entry)) }
{
    let items = read_list_or_none(Section::Attributes, MOST_ATTRIBUTES, value)?;
    attributes_of(alloc, objects, items)
}
