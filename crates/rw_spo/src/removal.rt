//! What no fitting pair has: it is removed until what is left fits.

ghost use Rattle.std.specs.Prelude.{◌≡◌, ◌<◌, ◌≤◌, ℕ, IfOk, OnOk, length};
ghost use Rattle.rw_schema.specs.Presentation.{signature_of};
ghost use Rattle.rw_schema.specs.Signature.{Signature};
ghost use Rattle.rw_spec.specs.Instance.{Instance};
ghost use Rattle.rw_dpo.specs.inner.Site.{HasKept, IsSite};
ghost use Rattle.rw_spo.specs.PairContexts.{applied};
ghost use Rattle.rw_spo.specs.inner.Removal.{AllMustGo, AreFollowed, Grows, IsFollowed, IsSettled, MustGo};

use crate::along::mark_sources;
use crate::beside::mark_partners;
use crate::element::Element;
use crate::removed::Removed;
use crate::start::{mark_deleted, mark_overwritten};
use rw_delta::Probe;
use rw_pattern::Tuple;
use rw_rule::Rule;
use rw_schema::{OutOfMemory, Schema};
use rw_steps::Steps;
use std::alloc::Global;
use std::sync::ledger::Ledger;

/// The elements that are in no fitting pair.
pub(crate) fn removed_elements<P: Probe, L: Ledger>(
    alloc: Global,
    schema: &Schema,
    probe: &P,
    rule: &Rule,
    tuple: &Tuple,
    steps: &mut Steps<L>,
) -> Result<Removed, OutOfMemory>
    requires probe { P.signature probe.now ≡ signature_of schema.now }
    requires site { IsSite (P.signature probe.now) rule.now tuple.now (P.instance probe.now) }
    ensures { IfOk result (IsSettled (P.signature probe.now) rule.now tuple.now (applied rule.now tuple.now (P.instance probe.now))) }
{
    let mut removed = Removed::new(alloc);
    mark_deleted(probe, rule, tuple, schema.objects(), &mut removed)?;
    mark_overwritten(schema, probe, rule, tuple, &mut removed)?;
    spread(schema, probe, rule, tuple, &mut removed, steps)?;
    Ok(removed)
}

/// Lets go whatever goes with the elements, each of which is looked at once.
fn spread<P: Probe, L: Ledger>(
    schema: &Schema,
    probe: &P,
    rule: &Rule,
    tuple: &Tuple,
    removed: &mut Removed,
    steps: &mut Steps<L>,
) -> Result<(), OutOfMemory>
    requires probe { P.signature probe.now ≡ signature_of schema.now }
    requires site { IsSite (P.signature probe.now) rule.now tuple.now (P.instance probe.now) }
    requires sound { AllMustGo (P.signature probe.now) (applied rule.now tuple.now (P.instance probe.now)) removed.old }
    ensures grows { OnOk result (Grows (P.signature probe.now) (applied rule.now tuple.now (P.instance probe.now)) removed.old removed.new) }
    ensures followed { OnOk result (AreFollowed (P.signature probe.now) rule.now tuple.now (applied rule.now tuple.now (P.instance probe.now)) removed.new (length removed.new)) }
{
    let mut place = 0;
    while place < removed.len() {
        let element = removed.at(place);
        follow(schema, probe, rule, tuple, element, removed, steps)?;
        place += 1;
    }
    Ok(())
}

/// Lets go whatever goes at once with the element.
fn follow<P: Probe, L: Ledger>(
    schema: &Schema,
    probe: &P,
    rule: &Rule,
    tuple: &Tuple,
    element: Element,
    removed: &mut Removed,
    steps: &mut Steps<L>,
) -> Result<(), OutOfMemory>
    requires probe { P.signature probe.now ≡ signature_of schema.now }
    requires site { IsSite (P.signature probe.now) rule.now tuple.now (P.instance probe.now) }
    requires kept { HasKept rule.now tuple.now element.object }
    requires goes { MustGo (P.signature probe.now) (applied rule.now tuple.now (P.instance probe.now)) element }
    ensures grows { OnOk result (Grows (P.signature probe.now) (applied rule.now tuple.now (P.instance probe.now)) removed.old removed.new) }
    ensures followed { OnOk result (IsFollowed (P.signature probe.now) rule.now tuple.now (applied rule.now tuple.now (P.instance probe.now)) removed.new element) }
{
    mark_sources(schema, probe, rule, tuple, element, removed, steps)?;
    mark_partners(probe, rule, tuple, element, removed)?;
    Ok(())
}
