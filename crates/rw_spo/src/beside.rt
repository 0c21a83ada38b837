//! What goes with an element by the parts that the rule keeps.

ghost use Rattle.std.specs.Prelude.{◌≡◌, ◌<◌, OnOk};
ghost use Rattle.rw_schema.specs.Signature.{Signature};
ghost use Rattle.rw_spec.specs.Instance.{Instance};
ghost use Rattle.rw_pattern.specs.PatternLists.{size_of};
ghost use Rattle.rw_dpo.specs.inner.Site.{HasKept, IsSite};
ghost use Rattle.rw_spo.specs.PairContexts.{applied};
ghost use Rattle.rw_spo.specs.inner.Removal.{Grows, HasBelow, MustGo, end_of as end_at, is_common as is_common_at, partner as partner_by};

use crate::element::Element;
use crate::removed::Removed;
use rw_delta::Probe;
use rw_dpo::{is_set, name_of_kept};
use rw_pattern::Tuple;
use rw_rule::Rule;
use rw_schema::{AttrId, ObjectId, OutOfMemory};

/// Lets go what stands at the other end of each kept part that has the element at its end.
pub(crate) fn mark_partners<P: Probe>(
    _probe: &P,
    rule: &Rule,
    tuple: &Tuple,
    element: Element,
    removed: &mut Removed,
) -> Result<(), OutOfMemory>
    requires kept { HasKept rule.now tuple.now element.object }
    requires site { IsSite (P.signature _probe.now) rule.now tuple.now (P.instance _probe.now) }
    requires goes { MustGo (P.signature _probe.now) (applied rule.now tuple.now (P.instance _probe.now)) element }
    ensures grows { OnOk result (Grows (P.signature _probe.now) (applied rule.now tuple.now (P.instance _probe.now)) removed.old removed.new) }
    ensures kept { OnOk result (HasBelow (size_of rule.now.keep element.object) (partner_by rule.now tuple.now element) removed.new) }
{
    for part in 0..rule.keep().size(ObjectId(element.object)) {
        removed.mark(partner(rule, tuple, element, part))?;
    }
    Ok(())
}

/// What stands at the other end of the kept part, where the element stands at its end. A set cell is at no end.
fn partner(rule: &Rule, tuple: &Tuple, element: Element, part: u32) -> Option<Element>
    requires kept { HasKept rule.now tuple.now element.object }
    requires part { part < size_of rule.now.keep element.object }
    ensures { result ≡ partner_by rule.now tuple.now element part }
{
    let object = ObjectId(element.object);
    if is_common(
        rule,
        element.attribute,
        rule.r().image(object, part as usize),
    ) && end_of(rule, tuple, element.is_right, object, part) == element.part
    {
        return Some(Element {
            is_right: !element.is_right,
            attribute: element.attribute,
            object: element.object,
            part: end_of(rule, tuple, !element.is_right, object, part),
        });
    }
    None
}

/// Whether the host has the element of the right part too: it is no set cell.
fn is_common(rule: &Rule, attribute: Option<u16>, part: u32) -> bool
    ensures { result ≡ is_common_at rule.now attribute part }
{
    match attribute {
        Some(attribute) => !is_set(rule, AttrId(attribute), part),
        None => true,
    }
}

/// The right part of the kept part, or its part of the host.
fn end_of(rule: &Rule, tuple: &Tuple, is_right: bool, object: ObjectId, part: u32) -> u32
    requires kept { HasKept rule.now tuple.now object.0 }
    requires part { part < size_of rule.now.keep object.0 }
    ensures { result ≡ end_at rule.now tuple.now is_right object.0 part }
{
    if is_right {
        rule.r().image(object, part as usize)
    } else {
        name_of_kept(rule, tuple, object, part)
    }
}
