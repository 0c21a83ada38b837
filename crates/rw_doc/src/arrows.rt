//! The arrows of a schema.

ghost use Rattle.std.specs.Prelude.{◌≡◌, ◌<◌, ◌≤◌, [], IfOk, length, map, option_map, option_and_then, position};
ghost use Rattle.std.specs.List.{list_any};
ghost use Rattle.std.specs.Str.{bytes_eq};
ghost use Rattle.serde_json.specs.View.{view};
ghost use Rattle.rw_schema.specs.Limits.{most_objects, most_arrows};
ghost use Rattle.rw_doc.specs.Chain.{each_after};
ghost use Rattle.rw_doc.specs.Gives.{Gives};
ghost use Rattle.rw_doc.specs.Json.{as_list};
ghost use Rattle.rw_doc.specs.Schemas as spec;
ghost use Rattle.rw_doc.specs.Texts.{texts_of_arrow};

use crate::faults::{fault_at, refused_at};
use crate::lists::{items_of, read_list};
use crate::objects::{has_name_length, object_named};
use crate::{DocFault, ReadDocEnd};
use rw_schema::{ArrowDef, ArrowId, MOST_ARROWS, Section, Text};
use serde_json::Value;
use std::alloc::Global;

/// The texts that an arrow is written in.
#[derive(Clone, Copy)]
struct ArrowTexts<'v> {
    name: &'v str,
    source: &'v str,
    target: &'v str,
}

/// The name, the source and the target that the items are.
fn texts_in(items: &[Value]) -> Option<ArrowTexts<'_>>
    ensures { option_map texts_of_arrow result ≡ spec.arrow_texts (map view items.now) }
{
    let [name, source, target] = items else {
        return None;
    };
    let name = name.as_str()?;
    let source = source.as_str()?;
    let target = target.as_str()?;
    Some(ArrowTexts {
        name,
        source,
        target,
    })
}

/// The name, the source and the target that the value lists.
fn arrow_texts(value: &Value) -> Option<ArrowTexts<'_>>
    ensures { option_map texts_of_arrow result ≡ option_and_then spec.arrow_texts (as_list (view value.now)) }
{
    texts_in(items_of(value)?)
}

/// Whether one of the arrows has the name.
fn is_arrow(arrows: &[ArrowDef], name: &str) -> bool
    ensures { result ≡ list_any (λ arrow. bytes_eq name.now arrow.name) arrows.now }
{
    arrows.iter().any(|arrow| name == arrow.name.as_str())
}

/// The place of the first arrow with the name.
fn place_of(arrows: &[ArrowDef], name: &str) -> Option<usize>
    ensures { result ≡ position (λ arrow. bytes_eq name.now arrow.name) arrows.now }
{
    arrows.iter().position(|arrow| name == arrow.name.as_str())
}

/// The arrow with the name, or the fault.
pub(crate) fn arrow_named(
    fault: DocFault,
    arrows: &[ArrowDef],
    name: &str,
) -> Result<ArrowId, ReadDocEnd>
    requires { length arrows.now ≤ most_arrows }
    ensures { Gives (λ arrow. arrow) result (spec.arrow_named fault arrows.now name.now) }
{
    match place_of(arrows, name) {
        Some(place) => Ok(ArrowId(place as u16)),
        None => Err(ReadDocEnd::Refused(fault)),
    }
}

/// The arrow that the value is, behind these.
fn read_arrow(
    alloc: Global,
    objects: &[Text],
    before: &[ArrowDef],
    value: &Value,
) -> Result<ArrowDef, ReadDocEnd>
    requires objects { length objects.now ≤ most_objects }
    requires before { length before.now < most_arrows }
    ensures { Gives (λ arrow. arrow) result (spec.read_arrow objects.now before.now (view value.now)) }
{
    let place = before.len() as u32;
    let Some(texts) = arrow_texts(value) else {
        return Err(refused_at(2, Section::Arrows, place, 0));
    };
    if !has_name_length(texts.name) {
        return Err(refused_at(4, Section::Arrows, place, 0));
    }
    if is_arrow(before, texts.name) {
        return Err(refused_at(5, Section::Arrows, place, 0));
    }
    let unknown = fault_at(6, Section::Arrows, place, 0);
    let source = object_named(unknown, objects, texts.source)?;
    let target = object_named(unknown, objects, texts.target)?;
    let name = Text::of(alloc, texts.name)?;
    Ok(ArrowDef {
        name,
        source,
        target,
    })
}

/// The arrows that the values are.
fn arrows_of(alloc: Global, objects: &[Text], items: &[Value]) -> Result<Vec<ArrowDef>, ReadDocEnd>
    requires objects { length objects.now ≤ most_objects }
    requires items { length items.now ≤ most_arrows }
    ensures gives { Gives (λ arrows. arrows.items) result (each_after (spec.read_arrow objects.now) [] (map view items.now)) }
    ensures few { IfOk result (λ arrows. length arrows.items ≤ most_arrows) }
{
    let mut arrows = Vec::new(alloc);
    for item in items {
        let arrow = read_arrow(alloc, objects, arrows.as_slice(), item)?;
        arrows.push(arrow)?;
    }
    Ok(arrows)
}

/// The arrows of a schema.
pub(crate) fn read_arrows(
    alloc: Global,
    objects: &[Text],
    value: &Value,
) -> Result<Vec<ArrowDef>, ReadDocEnd>
    requires { length objects.now ≤ most_objects }
    ensures gives { Gives (λ arrows. arrows.items) result (spec.read_arrows objects.now (view value.now)) }
    ensures few { IfOk result (λ arrows. length arrows.items ≤ most_arrows) }
{
    let items = read_list(Section::Arrows, MOST_ARROWS, value)?;
    arrows_of(alloc, objects, items)
}
