//! The list of a goal, with what is kept beside it.

ghost use Rattle.std.specs.Prelude.{◌≡◌, ◌<◌, ◌≤◌, [], IfOk, MatchOption, length, slice_index_or};
ghost use Rattle.rw_schema.specs.Presentation.{signature_of};
ghost use Rattle.rw_rule.specs.RuleParts.{goal_of_parts};
ghost use Rattle.rw_kept.specs.Conditions.{IsGoal};
ghost use Rattle.rw_kept.specs.KeptLists.{fresh_kept};

use crate::admitted::admitted;
use crate::extensions::all_extensions;
use rw_delta::Probe;
use rw_pattern::Tuple;
use rw_rule::Goal;
use rw_schema::{OutOfMemory, Schema};
use rw_search::all_matches;
use rw_steps::Steps;
use std::alloc::Global;
use std::marker::Model;
use std::sync::ledger::Ledger;

/// The list of a goal: its matches that meet its conditions, in lexicographic order. Beside it all matches of the left side are
/// kept, and of each condition and each match its extensions, all in order.
#[derive(Drop)]
pub struct Kept {
    list: Vec<Tuple>,
    matches: Vec<Tuple>,
    /// Of each condition and each match.
    extensions: Vec<Vec<Vec<Tuple>>>,
}

impl Model for Kept {
    ghost use Rattle.std.specs.Prelude.{map};
    ghost use Rattle.rw_kept.specs.KeptLists.{KeptLists};

    ghost Value = { KeptLists };

    ghost view = { λ kept. record {
      list = kept.list.items;
      matches = kept.matches.items;
      extensions = map (λ of_condition. map (λ group. group.items) of_condition.items) kept.extensions.items;
    } };
}

impl Kept {
    /// The list of a goal in the instance that the probe reads as, with what is kept beside it. There is one search for the left
    /// side and one for each condition.
    pub fn fresh<P: Probe, L: Ledger>(
        alloc: Global,
        schema: &Schema,
        goal: &Goal,
        probe: &P,
        steps: &mut Steps<L>,
    ) -> Result<Kept, OutOfMemory>
        requires probe { P.signature probe.now ≡ signature_of schema.now }
        requires goal { IsGoal (signature_of schema.now) (goal_of_parts goal.now) }
        ensures { IfOk result (λ kept. kept ≡ fresh_kept (signature_of schema.now) (P.instance probe.now) (goal_of_parts goal.now)) }
    {
        let monic = goal.monic.as_slice();
        let matches = all_matches(alloc, schema, probe, &goal.left, monic, steps)?;
        let extensions = all_extensions(alloc, schema, goal, probe, matches.as_slice(), steps)?;
        let list = admitted(
            alloc,
            goal.conditions.as_slice(),
            extensions.as_slice(),
            matches.as_slice(),
        )?;
        Ok(Kept {
            list,
            matches,
            extensions,
        })
    }

    /// How many tuples are in the list.
    pub fn len(&self) -> usize
        ensures { result ≡ length self.now.list }
    {
        self.list.len()
    }

    /// The tuple of the list at a place, or nothing past the last.
    pub fn get(&self, place: usize) -> Option<&Tuple>
        ensures { MatchOption result (length self.now.list ≤ place) (λ tuple. (place < length self.now.list) × (tuple.now ≡ slice_index_or self.now.list place [])) }
    {
        self.list.get(place)
    }

    /// The list.
    pub fn tuples(&self) -> &[Tuple]
        ensures { result.now ≡ self.now.list }
    {
        self.list.as_slice()
    }
}
