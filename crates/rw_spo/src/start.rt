//! The elements of the host that go by the rule itself.

ghost use Rattle.std.specs.Prelude.{◌≡◌, ◌<◌, ◌≤◌, ℕ, OnOk, Some, length, slice_get, sum};
ghost use Rattle.rw_schema.specs.declared.signature.AttrEnds.{AttrEnds};
ghost use Rattle.rw_schema.specs.Presentation.{ends_of_attribute, signature_of};
ghost use Rattle.rw_schema.specs.Signature.{Signature};
ghost use Rattle.rw_spec.specs.Instance.{Instance};
ghost use Rattle.rw_pattern.specs.PatternLists.{size_of};
ghost use Rattle.rw_redex.specs.RuleParts.{HasObject};
ghost use Rattle.rw_dpo.specs.inner.Site.{HasKept, IsSite};
ghost use Rattle.rw_spo.specs.PairContexts.{applied};
ghost use Rattle.rw_spo.specs.inner.Removal.{Grows, HasBelow, deleted as deleted_by, overwritten as overwritten_by};

use crate::element::Element;
use crate::removed::Removed;
use rw_delta::Probe;
use rw_dpo::{is_set, name_of_kept};
use rw_pattern::Tuple;
use rw_redex::{is_kept, name_of_left};
use rw_rule::Rule;
use rw_schema::{AttrDef, AttrId, ObjectId, OutOfMemory, Schema};

/// Lets the host's parts go that are matched and not kept.
pub(crate) fn mark_deleted<P: Probe>(
    probe: &P,
    rule: &Rule,
    tuple: &Tuple,
    objects: usize,
    removed: &mut Removed,
) -> Result<(), OutOfMemory>
    requires few { objects ≤ 64 }
    requires objects { objects ≡ (P.signature probe.now).objects }
    requires site { IsSite (P.signature probe.now) rule.now tuple.now (P.instance probe.now) }
    ensures grows { OnOk result (Grows (P.signature probe.now) (applied rule.now tuple.now (P.instance probe.now)) removed.old removed.new) }
    ensures deleted { OnOk result ((object : ℕ) → object < objects → HasBelow (size_of rule.now.goal.left object) (deleted_by rule.now tuple.now object) removed.new) }
{
    for object in 0..objects {
        mark_deleted_of(probe, rule, tuple, ObjectId(object as u16), removed)?;
    }
    Ok(())
}

/// Lets the host's parts of the object go that are matched and not kept.
fn mark_deleted_of<P: Probe>(
    _probe: &P,
    rule: &Rule,
    tuple: &Tuple,
    object: ObjectId,
    removed: &mut Removed,
) -> Result<(), OutOfMemory>
    requires object { object.0 < (P.signature _probe.now).objects }
    requires known { HasObject rule.now object.0 }
    requires site { IsSite (P.signature _probe.now) rule.now tuple.now (P.instance _probe.now) }
    ensures grows { OnOk result (Grows (P.signature _probe.now) (applied rule.now tuple.now (P.instance _probe.now)) removed.old removed.new) }
    ensures deleted { OnOk result (HasBelow (size_of rule.now.goal.left object.0) (deleted_by rule.now tuple.now object.0) removed.new) }
{
    for part in 0..rule.goal().left.size(object) {
        removed.mark(deleted(rule, tuple, object, part))?;
    }
    Ok(())
}

/// The part of the host that the left part is matched to, where the left part is not kept.
fn deleted(rule: &Rule, tuple: &Tuple, object: ObjectId, part: u32) -> Option<Element>
    requires object { HasObject rule.now object.0 }
    requires tuple { length tuple.now ≡ sum rule.now.goal.left.sizes }
    requires part { part < size_of rule.now.goal.left object.0 }
    ensures { result ≡ deleted_by rule.now tuple.now object.0 part }
{
    if is_kept(rule, object, part) {
        return None;
    }
    Some(Element {
        is_right: false,
        attribute: None,
        object: object.0,
        part: name_of_left(rule, tuple, object, part),
    })
}

/// Lets the host's cells go that the rule sets.
pub(crate) fn mark_overwritten<P: Probe>(
    schema: &Schema,
    probe: &P,
    rule: &Rule,
    tuple: &Tuple,
    removed: &mut Removed,
) -> Result<(), OutOfMemory>
    requires probe { P.signature probe.now ≡ signature_of schema.now }
    requires site { IsSite (P.signature probe.now) rule.now tuple.now (P.instance probe.now) }
    ensures grows { OnOk result (Grows (P.signature probe.now) (applied rule.now tuple.now (P.instance probe.now)) removed.old removed.new) }
    ensures overwritten { OnOk result ((c : ℕ) (ends : AttrEnds) → slice_get (P.signature probe.now).attributes c ≡ Some ends
        → HasBelow (size_of rule.now.keep ends.object.0) (overwritten_by rule.now tuple.now c ends.object.0) removed.new) }
{
    for (number, ends) in schema.attribute_list().iter().enumerate() {
        mark_overwritten_of(probe, rule, tuple, AttrId(number as u16), ends, removed)?;
    }
    Ok(())
}

/// Lets the host's cells of the attribute go that the rule sets.
fn mark_overwritten_of<P: Probe>(
    _probe: &P,
    rule: &Rule,
    tuple: &Tuple,
    attribute: AttrId,
    ends: &AttrDef,
    removed: &mut Removed,
) -> Result<(), OutOfMemory>
    requires attribute { slice_get (P.signature _probe.now).attributes attribute.0 ≡ Some (ends_of_attribute ends.now) }
    requires kept { HasKept rule.now tuple.now ends.now.object.0 }
    requires site { IsSite (P.signature _probe.now) rule.now tuple.now (P.instance _probe.now) }
    ensures grows { OnOk result (Grows (P.signature _probe.now) (applied rule.now tuple.now (P.instance _probe.now)) removed.old removed.new) }
    ensures overwritten { OnOk result (HasBelow (size_of rule.now.keep ends.now.object.0) (overwritten_by rule.now tuple.now attribute.0 ends.now.object.0) removed.new) }
{
    for part in 0..rule.keep().size(ends.object) {
        removed.mark(overwritten(rule, tuple, attribute, ends.object, part))?;
    }
    Ok(())
}

/// The host's cell of the kept part, where its right cell is set.
fn overwritten(
    rule: &Rule,
    tuple: &Tuple,
    attribute: AttrId,
    object: ObjectId,
    part: u32,
) -> Option<Element>
    requires kept { HasKept rule.now tuple.now object.0 }
    requires part { part < size_of rule.now.keep object.0 }
    ensures { result ≡ overwritten_by rule.now tuple.now attribute.0 object.0 part }
{
    if !is_set(rule, attribute, rule.r().image(object, part as usize)) {
        return None;
    }
    Some(Element {
        is_right: false,
        attribute: Some(attribute.0),
        object: object.0,
        part: name_of_kept(rule, tuple, object, part),
    })
}
