//! Whether the maps of a rule are maps of patterns.

ghost use Rattle.std.specs.Prelude.{◌≡◌};
ghost use Rattle.std.specs.List.{list_all};
ghost use Rattle.rw_schema.specs.Presentation.{signature_of};
ghost use Rattle.rw_pattern.specs.PatternFaults.{IsPatternOf};
ghost use Rattle.rw_rule.specs.RuleFaults.{AreOver, IsGoalOver, are_maps as are_all_maps, is_map as is_map_over};
ghost use Rattle.rw_rule.specs.RuleParts.{goal_of_parts, rule_of_parts};

use crate::{Goal, RuleParts};
use rw_pattern::{Pattern, check_map};
use rw_schema::{PartMap, Schema};

/// Whether the maps from the kept pattern are maps of patterns, and so are those of the conditions.
pub fn are_maps(schema: &Schema, parts: &RuleParts) -> bool
    requires { AreOver (signature_of schema.now) (rule_of_parts parts.now) }
    ensures { result ≡ are_all_maps (signature_of schema.now) (rule_of_parts parts.now) }
{
    is_map(schema, &parts.keep, &parts.goal.left, &parts.l)
        && is_map(schema, &parts.keep, &parts.right, &parts.r)
        && are_condition_maps(schema, &parts.goal)
}

/// Whether the map of each condition is one from the left pattern.
fn are_condition_maps(schema: &Schema, goal: &Goal) -> bool
    requires { IsGoalOver (signature_of schema.now) (goal_of_parts goal.now) }
    ensures { result ≡ list_all (λ condition. is_map_over (signature_of schema.now) goal.now.left condition.pattern condition.images) (goal_of_parts goal.now).conditions }
{
    for condition in goal.conditions.as_slice() {
        if !is_map(schema, &goal.left, &condition.pattern, &condition.map) {
            return false;
        }
    }
    true
}

/// Whether the images are a map from the one pattern to the other.
fn is_map(schema: &Schema, from: &Pattern, to: &Pattern, images: &PartMap) -> bool
    requires from { IsPatternOf (signature_of schema.now) from.now }
    requires to { IsPatternOf (signature_of schema.now) to.now }
    ensures { result ≡ is_map_over (signature_of schema.now) from.now to.now images.now }
{
    check_map(schema, from, to, images).is_ok()
}
