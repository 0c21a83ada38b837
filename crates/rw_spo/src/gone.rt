//! The names at which the host's elements go.

ghost use Rattle.std.specs.Prelude.{◌≡◌, ◌↔◌, ◌≤◌, ◌++◌, ℕ, IfOk, None, OnOk, Some, map, true, Contains};
ghost use Rattle.std.specs.List.{range_with_len};
ghost use Rattle.std.specs.Option.{option_to_list};
ghost use Rattle.rw_schema.specs.declared.signature.AttrEnds.{AttrEnds};
ghost use Rattle.rw_schema.specs.First.{map_in};
ghost use Rattle.rw_schema.specs.Presentation.{signature_of};
ghost use Rattle.rw_schema.specs.Signature.{Signature};
ghost use Rattle.rw_spec.specs.Instance.{Instance};
ghost use Rattle.rw_dpo.specs.inner.Site.{IsSite};
ghost use Rattle.rw_spo.specs.PairContexts.{applied};
ghost use Rattle.rw_spo.specs.inner.Removal.{AllMustGo};
ghost use Rattle.rw_spo.specs.inner.Staying.{goes_alone, names_alone as names_alone_in, part_alone as part_alone_in};

use crate::element::Element;
use crate::removed::Removed;
use rw_delta::{Probe, put_in_order};
use rw_pattern::Tuple;
use rw_rule::Rule;
use rw_schema::{OutOfMemory, Schema};
use std::alloc::Global;

/// Of each object the names that go, in ascending order.
pub(crate) fn removed_lists<P: Probe>(
    alloc: Global,
    probe: &P,
    rule: &Rule,
    tuple: &Tuple,
    removed: &Removed,
    objects: usize,
) -> Result<Vec<Vec<u32>>, OutOfMemory>
    requires few { objects ≤ 64 }
    requires site { IsSite (P.signature probe.now) rule.now tuple.now (P.instance probe.now) }
    requires sound { AllMustGo (P.signature probe.now) (applied rule.now tuple.now (P.instance probe.now)) removed.now }
    ensures { IfOk result (λ lists. map (λ list. list.items) lists.items ≡ map (names_alone_in removed.now (P.instance probe.now) None) (range_with_len 0 objects)) }
{
    let mut lists = Vec::new(alloc);
    for object in 0..objects {
        let names = names_alone(alloc, probe, rule, tuple, removed, None, object as u16)?;
        lists.push(names)?;
    }
    Ok(lists)
}

/// Of each attribute the names that stay and whose cell goes, in ascending order.
pub(crate) fn blank_lists<P: Probe>(
    alloc: Global,
    schema: &Schema,
    probe: &P,
    rule: &Rule,
    tuple: &Tuple,
    removed: &Removed,
) -> Result<Vec<Vec<u32>>, OutOfMemory>
    requires site { IsSite (P.signature probe.now) rule.now tuple.now (P.instance probe.now) }
    requires sound { AllMustGo (P.signature probe.now) (applied rule.now tuple.now (P.instance probe.now)) removed.now }
    ensures { IfOk result (λ lists. map (λ list. list.items) lists.items ≡ map_in (λ c (ends : AttrEnds). names_alone_in removed.now (P.instance probe.now) (Some c) ends.object.0) 0 (signature_of schema.now).attributes) }
{
    let mut lists = Vec::new(alloc);
    for (number, ends) in schema.attribute_list().iter().enumerate() {
        let attribute = Some(number as u16);
        let names = names_alone(alloc, probe, rule, tuple, removed, attribute, ends.object.0)?;
        lists.push(names)?;
    }
    Ok(lists)
}

/// The object's names at which the part goes or, of an attribute, the cell alone, in ascending order.
fn names_alone<P: Probe>(
    alloc: Global,
    _probe: &P,
    _rule: &Rule,
    _tuple: &Tuple,
    removed: &Removed,
    attribute: Option<u16>,
    object: u16,
) -> Result<Vec<u32>, OutOfMemory>
    requires site { IsSite (P.signature _probe.now) _rule.now _tuple.now (P.instance _probe.now) }
    requires sound { AllMustGo (P.signature _probe.now) (applied _rule.now _tuple.now (P.instance _probe.now)) removed.now }
    ensures { IfOk result (λ names. names.items ≡ names_alone_in removed.now (P.instance _probe.now) attribute object) }
{
    let mut names = gathered(alloc, removed, attribute, object)?;
    put_in_order(&mut names);
    Ok(names)
}

/// The object's names at which the part goes or, of an attribute, the cell alone.
fn gathered(
    alloc: Global,
    removed: &Removed,
    attribute: Option<u16>,
    object: u16,
) -> Result<Vec<u32>, OutOfMemory>
    ensures { IfOk result (λ names. (x : ℕ) → Contains names.items x ↔ (goes_alone removed.now attribute object x ≡ true)) }
{
    let mut names = Vec::new(alloc);
    for place in 0..removed.len() {
        let part = part_alone(removed, attribute, object, removed.at(place));
        push_some(&mut names, part)?;
    }
    Ok(names)
}

/// The part of the host's element, where the element is of this attribute and object and goes alone.
fn part_alone(
    removed: &Removed,
    attribute: Option<u16>,
    object: u16,
    element: Element,
) -> Option<u32>
    ensures { result ≡ part_alone_in removed.now attribute object element }
{
    let whole = Element {
        is_right: false,
        attribute: None,
        object,
        part: element.part,
    };
    if element == (Element { attribute, ..whole }) && (attribute.is_none() || !removed.has(whole)) {
        return Some(element.part);
    }
    None
}

/// Puts the name behind the others, if there is one.
fn push_some(names: &mut Vec<u32>, name: Option<u32>) -> Result<(), OutOfMemory>
    ensures { OnOk result (names.new.items ≡ names.old.items ++ option_to_list name) }
{
    if let Some(name) = name {
        names.push(name)?;
    }
    Ok(())
}
