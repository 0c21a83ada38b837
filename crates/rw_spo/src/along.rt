//! The parts whose arrows lead to one that goes.

ghost use Rattle.std.specs.Prelude.{◌≡◌, ◌<◌, ℕ, false, None, OnOk, true, Contains, length};
ghost use Rattle.rw_schema.specs.RowLists.{list_at};
ghost use Rattle.rw_schema.specs.Presentation.{ends_of_arrow, signature_of};
ghost use Rattle.rw_schema.specs.Signature.{Signature};
ghost use Rattle.rw_spec.specs.Instance.{Instance};
ghost use Rattle.rw_pattern.specs.PatternLists.{size_of};
ghost use Rattle.rw_redex.specs.RuleParts.{HasArrow};
ghost use Rattle.rw_dpo.specs.inner.Site.{IsSite};
ghost use Rattle.rw_spo.specs.PairContexts.{applied};
ghost use Rattle.rw_spo.specs.inner.Removal.{Grows, HasBelow, IsFollowedAlong, IsFollowedBack, MustGo, part_at, source_in};

use crate::element::Element;
use crate::removed::Removed;
use rw_columns::Preimage;
use rw_delta::Probe;
use rw_pattern::Tuple;
use rw_rule::Rule;
use rw_schema::{ArrowDef, ArrowId, ObjectId, OutOfMemory, Schema};
use rw_steps::Steps;
use std::sync::ledger::Ledger;

/// Lets each part go that an arrow leads to the element, if it is a part.
pub(crate) fn mark_sources<P: Probe, L: Ledger>(
    schema: &Schema,
    probe: &P,
    rule: &Rule,
    tuple: &Tuple,
    element: Element,
    removed: &mut Removed,
    steps: &mut Steps<L>,
) -> Result<(), OutOfMemory>
    requires probe { P.signature probe.now ≡ signature_of schema.now }
    requires site { IsSite (P.signature probe.now) rule.now tuple.now (P.instance probe.now) }
    requires goes { MustGo (P.signature probe.now) (applied rule.now tuple.now (P.instance probe.now)) element }
    ensures grows { OnOk result (Grows (P.signature probe.now) (applied rule.now tuple.now (P.instance probe.now)) removed.old removed.new) }
    ensures followed { OnOk result (IsFollowedBack (P.signature probe.now) (applied rule.now tuple.now (P.instance probe.now)) removed.new element) }
{
    if element.attribute.is_some() {
        return Ok(());
    }
    for (number, ends) in schema.arrow_list().iter().enumerate() {
        let arrow = ArrowId(number as u16);
        mark_along(probe, rule, tuple, arrow, ends, element, removed, steps)?;
    }
    Ok(())
}

/// Lets each part go that the arrow leads to the part.
fn mark_along<P: Probe, L: Ledger>(
    probe: &P,
    rule: &Rule,
    tuple: &Tuple,
    arrow: ArrowId,
    ends: &ArrowDef,
    element: Element,
    removed: &mut Removed,
    steps: &mut Steps<L>,
) -> Result<(), OutOfMemory>
    requires site { IsSite (P.signature probe.now) rule.now tuple.now (P.instance probe.now) }
    requires arrow { HasArrow (P.signature probe.now) rule.now arrow.0 (ends_of_arrow ends.now) }
    requires goes { MustGo (P.signature probe.now) (applied rule.now tuple.now (P.instance probe.now)) element }
    requires part { element.attribute ≡ None }
    ensures grows { OnOk result (Grows (P.signature probe.now) (applied rule.now tuple.now (P.instance probe.now)) removed.old removed.new) }
    ensures followed { OnOk result (ends.now.target.0 ≡ element.object → IsFollowedAlong (applied rule.now tuple.now (P.instance probe.now)) removed.new element arrow.0 (ends_of_arrow ends.now)) }
{
    if ends.target.0 != element.object {
        return Ok(());
    }
    if element.is_right {
        return mark_in_row(probe, rule, tuple, arrow, ends, element, removed);
    }
    let walk = probe.preimage(arrow, element.part);
    mark_walk(probe, rule, tuple, ends.source, walk, removed, steps)
}

/// Lets each part of the host go whose name is on the walk.
fn mark_walk<P: Probe, L: Ledger>(
    _probe: &P,
    _rule: &Rule,
    _tuple: &Tuple,
    object: ObjectId,
    mut walk: Preimage<'_>,
    removed: &mut Removed,
    steps: &mut Steps<L>,
) -> Result<(), OutOfMemory>
    requires { (x : ℕ) → Contains walk x → MustGo (P.signature _probe.now) (applied _rule.now _tuple.now (P.instance _probe.now)) (part_at false object.0 x) }
    ensures grows { OnOk result (Grows (P.signature _probe.now) (applied _rule.now _tuple.now (P.instance _probe.now)) removed.old removed.new) }
    ensures there { OnOk result ((x : ℕ) → Contains walk.entry x → Contains removed.new (part_at false object.0 x)) }
{
    while let Some(name) = walk.next(steps) {
        removed.mark(Some(Element {
            is_right: false,
            attribute: None,
            object: object.0,
            part: name,
        }))?;
    }
    Ok(())
}

/// Lets each right part go that the arrow leads to the right part.
fn mark_in_row<P: Probe>(
    _probe: &P,
    rule: &Rule,
    _tuple: &Tuple,
    arrow: ArrowId,
    ends: &ArrowDef,
    element: Element,
    removed: &mut Removed,
) -> Result<(), OutOfMemory>
    requires site { IsSite (P.signature _probe.now) rule.now _tuple.now (P.instance _probe.now) }
    requires arrow { HasArrow (P.signature _probe.now) rule.now arrow.0 (ends_of_arrow ends.now) }
    requires goes { MustGo (P.signature _probe.now) (applied rule.now _tuple.now (P.instance _probe.now)) element }
    requires part { element.attribute ≡ None }
    requires right { element.is_right ≡ true }
    requires enters { ends.now.target.0 ≡ element.object }
    ensures grows { OnOk result (Grows (P.signature _probe.now) (applied rule.now _tuple.now (P.instance _probe.now)) removed.old removed.new) }
    ensures there { OnOk result (HasBelow (size_of rule.now.right ends.now.source.0) (source_in rule.now arrow.0 ends.now.source.0 element.part) removed.new) }
{
    for part in 0..rule.right().size(ends.source) {
        removed.mark(source_at(rule, arrow, ends.source, element.part, part))?;
    }
    Ok(())
}

/// The right part, where the arrow leads from it to the target.
fn source_at(
    rule: &Rule,
    arrow: ArrowId,
    object: ObjectId,
    target: u32,
    part: u32,
) -> Option<Element>
    requires arrow { arrow.0 < length rule.now.right.rows }
    requires part { part < length (list_at rule.now.right.rows arrow.0) }
    ensures { result ≡ source_in rule.now arrow.0 object.0 target part }
{
    if rule.right().row(arrow)[part as usize] != target {
        return None;
    }
    Some(Element {
        is_right: true,
        attribute: None,
        object: object.0,
        part,
    })
}
