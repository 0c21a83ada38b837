//! The extensions of the matches of a goal.

ghost use Rattle.std.specs.Prelude.{◌≡◌, IfOk, Contains, length, map};
ghost use Rattle.std.specs.Cmp.Lexicographic.{slice_cmp};
ghost use Rattle.std.specs.List.Sorted.{IsStrictlySortedBy};
ghost use Rattle.std.specs.Ordering.{nat_cmp};
ghost use Rattle.rw_schema.specs.Presentation.{signature_of};
ghost use Rattle.rw_rule.specs.RuleParts.{condition_of_parts, goal_of_parts};
ghost use Rattle.rw_kept.specs.Conditions.{IsConditionOf, IsGoal};
ghost use Rattle.rw_kept.specs.KeptLists.{extensions_of as lists_of_extensions};

use crate::groups::grouped;
use crate::restrict::image_places;
use rw_delta::Probe;
use rw_pattern::Tuple;
use rw_rule::{Condition, Goal};
use rw_schema::{OutOfMemory, Schema};
use rw_search::all_matches;
use rw_steps::Steps;
use std::alloc::Global;
use std::sync::ledger::Ledger;

/// Of each of the matches its extensions along the condition's map: they are found by one search of the condition's pattern with
/// the entries of the left side.
fn extensions_of<P: Probe, L: Ledger>(
    alloc: Global,
    schema: &Schema,
    goal: &Goal,
    condition: &Condition,
    probe: &P,
    matches: &[Tuple],
    steps: &mut Steps<L>,
) -> Result<Vec<Vec<Tuple>>, OutOfMemory>
    requires probe { P.signature probe.now ≡ signature_of schema.now }
    requires condition { IsConditionOf (signature_of schema.now) goal.now.kinds.items goal.now.left (condition_of_parts condition.now) }
    requires ascend { IsStrictlySortedBy (slice_cmp nat_cmp) matches.now }
    ensures { IfOk result (λ groups. map (λ group. group.items) groups.items
        ≡ lists_of_extensions (signature_of schema.now) (P.instance probe.now) (goal_of_parts goal.now) matches.now (condition_of_parts condition.now)) }
{
    let joined = condition
        .pattern
        .with_entries(alloc, &goal.left, &condition.map)?;
    let monic = condition.monic.as_slice();
    let tuples = all_matches(alloc, schema, probe, &joined, monic, steps)?;
    let places = image_places(alloc, &goal.left, condition)?;
    grouped(alloc, matches, places.as_slice(), tuples.as_slice())
}

/// Of each condition and each of the matches its extensions.
pub(crate) fn all_extensions<P: Probe, L: Ledger>(
    alloc: Global,
    schema: &Schema,
    goal: &Goal,
    probe: &P,
    matches: &[Tuple],
    steps: &mut Steps<L>,
) -> Result<Vec<Vec<Vec<Tuple>>>, OutOfMemory>
    requires probe { P.signature probe.now ≡ signature_of schema.now }
    requires goal { IsGoal (signature_of schema.now) (goal_of_parts goal.now) }
    requires ascend { IsStrictlySortedBy (slice_cmp nat_cmp) matches.now }
    ensures { IfOk result (λ all. map (λ groups. map (λ group. group.items) groups.items) all.items
        ≡ map (lists_of_extensions (signature_of schema.now) (P.instance probe.now) (goal_of_parts goal.now) matches.now) (goal_of_parts goal.now).conditions) }
{
    let mut all = Vec::new(alloc);
    for condition in goal.conditions.as_slice() {
        let groups = extensions_of(alloc, schema, goal, condition, probe, matches, steps)?;
        all.push(groups)?;
    }
    Ok(all)
}
