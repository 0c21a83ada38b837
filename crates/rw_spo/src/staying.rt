//! Which elements stay.

ghost use Rattle.std.specs.Prelude.{◌≡◌, ◌<◌, ◌≤◌, ℕ, IfOk, None, Some, length, map};
ghost use Rattle.std.specs.List.{range_with_len};
ghost use Rattle.rw_schema.specs.declared.signature.AttrEnds.{AttrEnds};
ghost use Rattle.rw_schema.specs.First.{map_in};
ghost use Rattle.rw_schema.specs.Presentation.{signature_of};
ghost use Rattle.rw_pattern.specs.PatternLists.{size_of};
ghost use Rattle.rw_dpo.specs.inner.Site.{HasKept};
ghost use Rattle.rw_spo.specs.inner.Staying.{marks_staying as marks_of, name_staying as name_of, names_staying as names_of, stays_right as stays_right_in};

use crate::element::Element;
use crate::removed::Removed;
use rw_dpo::name_of_kept;
use rw_pattern::{Pattern, Tuple};
use rw_rule::Rule;
use rw_schema::{ObjectId, OutOfMemory, Schema};
use std::alloc::Global;

/// Of each object the names of its kept parts, where they stay.
pub(crate) fn kept_lists(
    alloc: Global,
    removed: &Removed,
    rule: &Rule,
    tuple: &Tuple,
    objects: usize,
) -> Result<Vec<Vec<Option<u32>>>, OutOfMemory>
    requires few { objects ≤ 64 }
    requires kept { (object : ℕ) → object < objects → HasKept rule.now tuple.now object }
    ensures { IfOk result (λ lists. map (λ list. list.items) lists.items ≡ map (names_of removed.now rule.now tuple.now) (range_with_len 0 objects)) }
{
    let mut lists = Vec::new(alloc);
    for object in 0..objects {
        lists.push(names_staying(alloc, removed, rule, tuple, ObjectId(object as u16))?)?;
    }
    Ok(lists)
}

/// Of the object's kept parts the names that stay.
fn names_staying(
    alloc: Global,
    removed: &Removed,
    rule: &Rule,
    tuple: &Tuple,
    object: ObjectId,
) -> Result<Vec<Option<u32>>, OutOfMemory>
    requires kept { HasKept rule.now tuple.now object.0 }
    ensures { IfOk result (λ names. names.items ≡ names_of removed.now rule.now tuple.now object.0) }
{
    let mut names = Vec::new(alloc);
    for part in 0..rule.keep().size(object) {
        names.push(name_staying(removed, rule, tuple, object, part))?;
    }
    Ok(names)
}

/// The name of the kept part, where its part of the host stays.
fn name_staying(
    removed: &Removed,
    rule: &Rule,
    tuple: &Tuple,
    object: ObjectId,
    part: u32,
) -> Option<u32>
    requires kept { HasKept rule.now tuple.now object.0 }
    requires part { part < size_of rule.now.keep object.0 }
    ensures { result ≡ name_of removed.now rule.now tuple.now object.0 part }
{
    let name = name_of_kept(rule, tuple, object, part);
    if removed.has(Element {
        is_right: false,
        attribute: None,
        object: object.0,
        part: name,
    }) {
        return None;
    }
    Some(name)
}

/// Of each object which of its right parts stay.
pub(crate) fn right_lists(
    alloc: Global,
    removed: &Removed,
    right: &Pattern,
    objects: usize,
) -> Result<Vec<Vec<bool>>, OutOfMemory>
    requires few { objects ≤ 64 }
    requires sizes { objects ≤ length right.now.sizes }
    ensures { IfOk result (λ lists. map (λ list. list.items) lists.items ≡ map (marks_of removed.now right.now None) (range_with_len 0 objects)) }
{
    let mut lists = Vec::new(alloc);
    for object in 0..objects {
        lists.push(marks_staying(alloc, removed, right, None, ObjectId(object as u16))?)?;
    }
    Ok(lists)
}

/// Of each attribute which cells of the right parts of its object stay.
pub(crate) fn right_cell_lists(
    alloc: Global,
    schema: &Schema,
    removed: &Removed,
    right: &Pattern,
) -> Result<Vec<Vec<bool>>, OutOfMemory>
    requires { length right.now.sizes ≡ length schema.now.objects }
    ensures { IfOk result (λ lists. map (λ list. list.items) lists.items ≡ map_in (λ c (ends : AttrEnds). marks_of removed.now right.now (Some c) ends.object.0) 0 (signature_of schema.now).attributes) }
{
    let mut lists = Vec::new(alloc);
    for (number, ends) in schema.attribute_list().iter().enumerate() {
        let attribute = Some(number as u16);
        lists.push(marks_staying(alloc, removed, right, attribute, ends.object)?)?;
    }
    Ok(lists)
}

/// Of the object's right parts whether they stay, with their cells of the attribute if there is one.
fn marks_staying(
    alloc: Global,
    removed: &Removed,
    right: &Pattern,
    attribute: Option<u16>,
    object: ObjectId,
) -> Result<Vec<bool>, OutOfMemory>
    requires { object.0 < length right.now.sizes }
    ensures { IfOk result (λ marks. marks.items ≡ marks_of removed.now right.now attribute object.0) }
{
    let mut marks = Vec::new(alloc);
    for part in 0..right.size(object) {
        marks.push(stays_right(removed, attribute, object, part))?;
    }
    Ok(marks)
}

/// Whether the right part stays, with its cell of the attribute if there is one.
fn stays_right(removed: &Removed, attribute: Option<u16>, object: ObjectId, part: u32) -> bool
    ensures { result ≡ stays_right_in removed.now attribute object.0 part }
{
    let whole = Element {
        is_right: true,
        attribute: None,
        object: object.0,
        part,
    };
    !removed.has(whole) && !removed.has(Element { attribute, ..whole })
}
