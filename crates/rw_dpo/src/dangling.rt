//! Arrows that would lead to a removed part.

ghost use Rattle.std.specs.Prelude.{◌≡◌, ◌<◌, [], ◌∷◌, find, length, not, sum};
ghost use Rattle.rw_schema.specs.Presentation.{ends_of_arrow, signature_of};
ghost use Rattle.rw_pattern.specs.PatternLists.{size_of};
ghost use Rattle.rw_redex.specs.Matched.{is_matched as is_matched_name};
ghost use Rattle.rw_redex.specs.Obstructions.{dangles, dangling, dangling_at as dangling_along};
ghost use Rattle.rw_redex.specs.RuleParts.{HasArrow, HasObject};
ghost use Rattle.rw_dpo.specs.inner.Dangling.{dangles_to, lesser as lesser_of};
ghost use Rattle.rw_dpo.specs.inner.Site.{IsSite};

use rw_columns::Preimage;
use rw_delta::Probe;
use rw_pattern::Tuple;
use rw_redex::{is_kept, is_matched, name_of_left};
use rw_rule::{Refusal, Rule};
use rw_schema::{ArrowDef, ArrowId, ObjectId, Schema};
use rw_steps::Steps;
use std::sync::ledger::Ledger;

/// The first arrow, and the least part outside the match, from which it leads to a part that is removed.
pub(crate) fn first_dangling<P: Probe, L: Ledger>(
    schema: &Schema,
    probe: &P,
    rule: &Rule,
    tuple: &Tuple,
    steps: &mut Steps<L>,
) -> Option<Refusal>
    requires probe { P.signature probe.now ≡ signature_of schema.now }
    requires site { IsSite (P.signature probe.now) rule.now tuple.now (P.instance probe.now) }
    ensures { result ≡ dangling (signature_of schema.now) rule.now tuple.now (P.instance probe.now) }
{
    for (number, ends) in schema.arrow_list().iter().enumerate() {
        let arrow = ArrowId(number as u16);
        if let Some(refusal) = dangling_at(probe, rule, tuple, arrow, ends, steps) {
            return Some(refusal);
        }
    }
    None
}

/// The least part outside the match from which the arrow leads to a part that is removed, as a refusal.
fn dangling_at<P: Probe, L: Ledger>(
    probe: &P,
    rule: &Rule,
    tuple: &Tuple,
    arrow: ArrowId,
    ends: &ArrowDef,
    steps: &mut Steps<L>,
) -> Option<Refusal>
    requires site { IsSite (P.signature probe.now) rule.now tuple.now (P.instance probe.now) }
    requires arrow { HasArrow (P.signature probe.now) rule.now arrow.0 (ends_of_arrow ends.now) }
    ensures { result ≡ dangling_along rule.now tuple.now (P.instance probe.now) arrow.0 (ends_of_arrow ends.now) }
{
    let part = least_dangling(probe, rule, tuple, arrow, ends, steps)?;
    Some(Refusal::Dangling { arrow, part })
}

/// The least name outside the match that the arrow leads to a name that is removed. The names that lead to each removed
/// one are walked, and no others.
fn least_dangling<P: Probe, L: Ledger>(
    probe: &P,
    rule: &Rule,
    tuple: &Tuple,
    arrow: ArrowId,
    ends: &ArrowDef,
    steps: &mut Steps<L>,
) -> Option<u32>
    requires site { IsSite (P.signature probe.now) rule.now tuple.now (P.instance probe.now) }
    requires arrow { HasArrow (P.signature probe.now) rule.now arrow.0 (ends_of_arrow ends.now) }
    ensures { result ≡ find (dangles rule.now tuple.now (P.instance probe.now) arrow.0 (ends_of_arrow ends.now)) ((P.instance probe.now).names ends.now.source.0) }
{
    let mut least = None;
    for part in 0..rule.goal().left.size(ends.target) {
        least = lesser(
            least,
            least_over(probe, rule, tuple, arrow, ends, part, steps),
        );
    }
    least
}

/// The least name outside the match that the arrow leads to the name of the part, where the part goes.
fn least_over<P: Probe, L: Ledger>(
    probe: &P,
    rule: &Rule,
    tuple: &Tuple,
    arrow: ArrowId,
    ends: &ArrowDef,
    part: u32,
    steps: &mut Steps<L>,
) -> Option<u32>
    requires site { IsSite (P.signature probe.now) rule.now tuple.now (P.instance probe.now) }
    requires arrow { HasArrow (P.signature probe.now) rule.now arrow.0 (ends_of_arrow ends.now) }
    requires part { part < size_of rule.now.goal.left ends.now.target.0 }
    ensures { result ≡ find (dangles_to rule.now tuple.now (P.instance probe.now) arrow.0 (ends_of_arrow ends.now) (part ∷ [])) ((P.instance probe.now).names ends.now.source.0) }
{
    if is_kept(rule, ends.target, part) {
        return None;
    }
    let name = name_of_left(rule, tuple, ends.target, part);
    first_outside(rule, tuple, ends.source, probe.preimage(arrow, name), steps)
}

/// The first name of a walk that is outside the match.
fn first_outside<L: Ledger>(
    rule: &Rule,
    tuple: &Tuple,
    object: ObjectId,
    mut walk: Preimage<'_>,
    steps: &mut Steps<L>,
) -> Option<u32>
    requires object { HasObject rule.now object.0 }
    requires tuple { length tuple.now ≡ sum rule.now.goal.left.sizes }
    ensures { result ≡ find (λ name. not (is_matched_name rule.now tuple.now object.0 name)) walk.entry }
{
    while let Some(name) = walk.next(steps) {
        if !is_matched(rule, tuple, object, name) {
            return Some(name);
        }
    }
    None
}

/// The lesser of two numbers, as far as they are there.
fn lesser(first: Option<u32>, second: Option<u32>) -> Option<u32>
    ensures { result ≡ lesser_of first second }
{
    match (first, second) {
        (None, _) => second,
        (Some(x), None) => Some(x),
        (Some(x), Some(y)) => Some(if y < x { y } else { x }),
    }
}
