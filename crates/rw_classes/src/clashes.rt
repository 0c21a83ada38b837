//! The clashes of the atoms of classes, attribute by attribute.

ghost use Rattle.std.specs.Prelude.{◌≡◌, ◌≤◌, ℕ, IfOk, List, Some, length, map, slice_get};
ghost use Rattle.rw_schema.specs.declared.signature.AttrEnds.{AttrEnds};
ghost use Rattle.rw_schema.specs.Presentation.{ends_of_attribute};
ghost use Rattle.rw_classes.specs.ClassLists.{number_lists, first_lists};
ghost use Rattle.rw_classes.specs.Clashes.{CanMerge, MergesAt, MergesEach, FirstOf};
ghost use Rattle.rw_classes.specs.inner.Clashes.{clash_at, comes_earlier, lesser};

use crate::classes::Classes;
use crate::joined::{firsts_at, numbers_at};
use crate::merge::{Difference, Merged, merge};
use rw_schema::{AttrDef, AttrId, ObjectId, OutOfMemory, Rows};
use std::alloc::Global;

/// Two parts of one class with different atoms, at an attribute of their object.
#[derive(Clone, Copy)]
pub struct ClashAt {
    pub object: ObjectId,
    pub attr: AttrId,
    pub difference: Difference,
}

/// Of each attribute the atoms of the classes of its object.
pub fn merge_each(
    alloc: Global,
    attributes: &[AttrDef],
    left: &Rows,
    right: &Rows,
    classes: &[Classes],
) -> Result<Vec<Merged>, OutOfMemory>
    requires few { length attributes.now ≤ 256 }
    requires cells { (c : ℕ) (ends : AttrEnds) → slice_get (map ends_of_attribute attributes.now) c ≡ Some ends
        → CanMerge left.now right.now (number_lists classes.now) (first_lists classes.now) c ends }
    ensures each { IfOk result (λ merged. length merged.items ≡ length attributes.now) }
    ensures merged { IfOk result (λ merged. MergesEach left.now right.now (number_lists classes.now) (first_lists classes.now) (map ends_of_attribute attributes.now) merged.items) }
{
    let mut merged = Vec::new(alloc);
    for (place, attribute) in attributes.iter().enumerate() {
        merged.push(merge_at(alloc, AttrId(place as u16), attribute, left, right, classes)?)?;
    }
    Ok(merged)
}

/// The atoms that the classes of the attribute's object have in it.
fn merge_at(
    alloc: Global,
    place: AttrId,
    attribute: &AttrDef,
    left: &Rows,
    right: &Rows,
    classes: &[Classes],
) -> Result<Merged, OutOfMemory>
    requires { CanMerge left.now right.now (number_lists classes.now) (first_lists classes.now) place.0 (ends_of_attribute attribute.now) }
    ensures { IfOk result (MergesAt left.now right.now (number_lists classes.now) (first_lists classes.now) place.0 (ends_of_attribute attribute.now)) }
{
    merge(
        alloc,
        numbers_at(classes, attribute.object),
        firsts_at(classes, attribute.object).len(),
        left.cells(place),
        right.cells(place),
    )
}

/// The first clash, by object, class and attribute.
pub fn first_clash(attributes: &[AttrDef], merged: &[Merged]) -> Option<ClashAt>
    requires few { length attributes.now ≤ 256 }
    requires each { length merged.now ≡ length attributes.now }
    ensures { FirstOf (length attributes.now) (map ends_of_attribute attributes.now) merged.now result }
{
    let mut found = None;
    for (place, attribute) in attributes.iter().enumerate() {
        let new = clash_of(AttrId(place as u16), attribute, &merged[place]);
        found = lesser_of(found, new);
    }
    found
}

/// The clash at the attribute, if there is one.
fn clash_of(place: AttrId, attribute: &AttrDef, merged: &Merged) -> Option<ClashAt>
    ensures { result ≡ clash_at place.0 (ends_of_attribute attribute.now) merged.now }
{
    match merged {
        Merged::Firsts(_) => None,
        Merged::Differ(difference) => Some(ClashAt {
            object: attribute.object,
            attr: place,
            difference: *difference,
        }),
    }
}

/// The clash of the two that comes first; the one found where both are at one class.
fn lesser_of(found: Option<ClashAt>, new: Option<ClashAt>) -> Option<ClashAt>
    ensures { result ≡ lesser found new }
{
    match (found, new) {
        (None, _) => new,
        (Some(_), None) => found,
        (Some(one), Some(other)) => { if is_before(other, one) { new } else { found } }
    }
}

/// Whether the clash is at an earlier object, or there at an earlier class.
fn is_before(clash: ClashAt, other: ClashAt) -> bool
    ensures { result ≡ comes_earlier clash other }
{
    clash.object.0 < other.object.0
        || (clash.object.0 == other.object.0 && clash.difference.class < other.difference.class)
}
