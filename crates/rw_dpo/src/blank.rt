//! The names whose cells are made blank.

ghost use Rattle.std.specs.Prelude.{◌≡◌, ◌<◌, ◌&&◌, ℕ, IfOk, Some, filter, length, map, slice_get};
ghost use Rattle.std.specs.Option.{is_some};
ghost use Rattle.rw_schema.specs.First.{map_in};
ghost use Rattle.rw_schema.specs.Presentation.{ends_of_attribute, signature_of};
ghost use Rattle.rw_schema.specs.Signature.{holder_of};
ghost use Rattle.rw_spec.specs.Instance.{Has};
ghost use Rattle.rw_pattern.specs.MapFaults.{image_of};
ghost use Rattle.rw_pattern.specs.PatternLists.{size_of};
ghost use Rattle.rw_complement.specs.Redex.{CanBeGlued};
ghost use Rattle.rw_redex.specs.Instantiated.{redex_of};
ghost use Rattle.rw_rule.specs.Images.{parts_of};
ghost use Rattle.rw_rule.specs.Sets.{is_set as is_set_cell};
ghost use Rattle.rw_dpo.specs.Contexts.{blank_names as blank_names_of, name_of_kept as kept_name};
ghost use Rattle.rw_dpo.specs.inner.Blank.{gives_up_atom, is_set_over as is_set_over_name, is_set_beside};
ghost use Rattle.rw_dpo.specs.inner.Site.{HasKept, IsSite};

use crate::kept::name_of_kept;
use rw_delta::{Probe, put_in_order};
use rw_pattern::Tuple;
use rw_rule::Rule;
use rw_schema::{AttrDef, AttrId, ObjectId, OutOfMemory, Schema};
use rw_steps::Steps;
use std::alloc::Global;
use std::sync::ledger::Ledger;

/// Of each attribute the names whose cell is made blank though the host has an atom there, in ascending order.
pub(crate) fn blank_lists<P: Probe, L: Ledger>(
    alloc: Global,
    schema: &Schema,
    probe: &P,
    rule: &Rule,
    tuple: &Tuple,
    steps: &mut Steps<L>,
) -> Result<Vec<Vec<u32>>, OutOfMemory>
    requires probe { P.signature probe.now ≡ signature_of schema.now }
    requires site { IsSite (P.signature probe.now) rule.now tuple.now (P.instance probe.now) }
    requires glued { CanBeGlued (P.signature probe.now) (redex_of rule.now tuple.now (P.instance probe.now)) }
    ensures { IfOk result (λ lists. map (λ list. list.items) lists.items ≡ map_in (blank_names_of rule.now tuple.now (P.instance probe.now)) 0 (signature_of schema.now).attributes) }
{
    let mut lists = Vec::new(alloc);
    for (number, ends) in schema.attribute_list().iter().enumerate() {
        let attribute = AttrId(number as u16);
        lists.push(blank_names(alloc, probe, rule, tuple, attribute, ends, steps)?)?;
    }
    Ok(lists)
}

/// The names whose cell of the attribute is made blank though the host has an atom there, in ascending order.
fn blank_names<P: Probe, L: Ledger>(
    alloc: Global,
    probe: &P,
    rule: &Rule,
    tuple: &Tuple,
    attribute: AttrId,
    ends: &AttrDef,
    steps: &mut Steps<L>,
) -> Result<Vec<u32>, OutOfMemory>
    requires attribute { slice_get (P.signature probe.now).attributes attribute.0 ≡ Some (ends_of_attribute ends.now) }
    requires site { IsSite (P.signature probe.now) rule.now tuple.now (P.instance probe.now) }
    requires glued { CanBeGlued (P.signature probe.now) (redex_of rule.now tuple.now (P.instance probe.now)) }
    ensures { IfOk result (λ names. names.items ≡ blank_names_of rule.now tuple.now (P.instance probe.now) attribute.0 (ends_of_attribute ends.now)) }
{
    let mut names = names_given_up(alloc, probe, rule, tuple, attribute, ends.object, steps)?;
    put_in_order(&mut names);
    Ok(names)
}

/// The names of the object's kept parts that give up an atom of the attribute, in the order of the parts.
fn names_given_up<P: Probe, L: Ledger>(
    alloc: Global,
    probe: &P,
    rule: &Rule,
    tuple: &Tuple,
    attribute: AttrId,
    object: ObjectId,
    steps: &mut Steps<L>,
) -> Result<Vec<u32>, OutOfMemory>
    requires attribute { attribute.0 < length (P.signature probe.now).attributes }
    requires holder { object.0 ≡ holder_of (P.signature probe.now) attribute.0 }
    requires kept { HasKept rule.now tuple.now object.0 }
    requires names { (part : ℕ) → part < size_of rule.now.keep object.0 → Has (P.instance probe.now) object.0 (kept_name rule.now tuple.now object.0 part) }
    ensures { IfOk result (λ names. names.items ≡ map (kept_name rule.now tuple.now object.0) (filter (gives_up_atom rule.now tuple.now (P.instance probe.now) object.0 attribute.0) (parts_of rule.now.keep object.0))) }
{
    let mut names = Vec::new(alloc);
    for part in 0..rule.keep().size(object) {
        let name = name_of_kept(rule, tuple, object, part);
        if gives_up(probe, rule, tuple, attribute, object, name, steps) {
            names.push(name)?;
        }
    }
    Ok(names)
}

/// Whether each kept part with the name has its cell of the attribute set, and the host has an atom there.
fn gives_up<P: Probe, L: Ledger>(
    probe: &P,
    rule: &Rule,
    tuple: &Tuple,
    attribute: AttrId,
    object: ObjectId,
    name: u32,
    steps: &mut Steps<L>,
) -> bool
    requires attribute { attribute.0 < length (P.signature probe.now).attributes }
    requires holder { object.0 ≡ holder_of (P.signature probe.now) attribute.0 }
    requires kept { HasKept rule.now tuple.now object.0 }
    requires name { Has (P.instance probe.now) object.0 name }
    ensures { result ≡ (is_set_over_name rule.now tuple.now object.0 attribute.0 name && is_some ((P.instance probe.now).cell attribute.0 name)) }
{
    is_set_over(rule, tuple, attribute, object, name)
        && probe.cell(attribute, name, steps).is_some()
}

/// Whether each kept part with the name has its cell of the attribute set.
fn is_set_over(rule: &Rule, tuple: &Tuple, attribute: AttrId, object: ObjectId, name: u32) -> bool
    requires kept { HasKept rule.now tuple.now object.0 }
    ensures { result ≡ is_set_over_name rule.now tuple.now object.0 attribute.0 name }
{
    for part in 0..rule.keep().size(object) {
        if !is_set_at(rule, tuple, attribute, object, name, part) {
            return false;
        }
    }
    true
}

/// Whether the kept part has another name, or its cell of the attribute is set.
fn is_set_at(
    rule: &Rule,
    tuple: &Tuple,
    attribute: AttrId,
    object: ObjectId,
    name: u32,
    part: u32,
) -> bool
    requires kept { HasKept rule.now tuple.now object.0 }
    requires part { part < size_of rule.now.keep object.0 }
    ensures { result ≡ is_set_beside rule.now tuple.now object.0 attribute.0 name part }
{
    name_of_kept(rule, tuple, object, part) != name
        || is_set(rule, attribute, rule.r().image(object, part as usize))
}

/// Whether the cell of the attribute at the right part is set.
pub fn is_set(rule: &Rule, attribute: AttrId, part: u32) -> bool
    ensures { result ≡ is_set_cell rule.now.sets attribute.0 part }
{
    rule.sets()
        .iter()
        .any(|set| set.attr.0 == attribute.0 && set.part == part)
}
