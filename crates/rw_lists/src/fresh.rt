//! The list of a goal.

ghost use Rattle.std.specs.Prelude.{◌≡◌, IfOk};
ghost use Rattle.rw_schema.specs.Presentation.{signature_of};
ghost use Rattle.rw_rule.specs.RuleParts.{goal_of_parts};
ghost use Rattle.rw_lists.specs.Fresh.{IsListable, fresh_list as fresh_list_of};

use rw_delta::Probe;
use rw_pattern::Tuple;
use rw_rule::Goal;
use rw_schema::{OutOfMemory, Schema};
use rw_search::all_matches;
use rw_steps::Steps;
use std::alloc::Global;
use std::sync::ledger::Ledger;

/// The list of a goal without conditions in the instance that the probe reads as: all matches of its pattern, in
/// lexicographic order, each once.
pub fn fresh_list<P: Probe, L: Ledger>(
    alloc: Global,
    schema: &Schema,
    goal: &Goal,
    probe: &P,
    steps: &mut Steps<L>,
) -> Result<Vec<Tuple>, OutOfMemory>
    requires probe { P.signature probe.now ≡ signature_of schema.now }
    requires goal { IsListable (signature_of schema.now) (goal_of_parts goal.now) }
    ensures { IfOk result (λ list. list.items ≡ fresh_list_of (signature_of schema.now) (P.instance probe.now) (goal_of_parts goal.now)) }
{
    all_matches(
        alloc,
        schema,
        probe,
        &goal.left,
        goal.monic.as_slice(),
        steps,
    )
}
