//! Which names a match takes, and which of them are removed.

ghost use Rattle.std.specs.Prelude.{◌≡◌, ◌<◌, ◌==◌, ◌&&◌, not, length, sum};
ghost use Rattle.rw_pattern.specs.PatternLists.{size_of, map_of_tuple};
ghost use Rattle.rw_rule.specs.Images.{is_image};
ghost use Rattle.rw_redex.specs.Matched.{is_matched as is_matched_name, is_removed as is_removed_name};
ghost use Rattle.rw_redex.specs.RuleParts.{HasObject};

use rw_pattern::Tuple;
use rw_rule::Rule;
use rw_schema::{ObjectId, has_number};

/// Whether the match gives the name to a part of the left side.
pub fn is_matched(rule: &Rule, tuple: &Tuple, object: ObjectId, name: u32) -> bool
    requires object { HasObject rule.now object.0 }
    requires tuple { length tuple.now ≡ sum rule.now.goal.left.sizes }
    ensures { result ≡ is_matched_name rule.now tuple.now object.0 name }
{
    has_number(rule.goal().left.names_of(object, tuple.names()), name)
}

/// Whether the match gives the name to a part of the left side that is not kept.
pub fn is_removed(rule: &Rule, tuple: &Tuple, object: ObjectId, name: u32) -> bool
    requires object { HasObject rule.now object.0 }
    requires tuple { length tuple.now ≡ sum rule.now.goal.left.sizes }
    ensures { result ≡ is_removed_name rule.now tuple.now object.0 name }
{
    for part in 0..rule.goal().left.size(object) {
        if is_removed_at(rule, tuple, object, part, name) {
            return true;
        }
    }
    false
}

/// Whether the part of the left side is not kept, and the match gives the name to it.
fn is_removed_at(rule: &Rule, tuple: &Tuple, object: ObjectId, part: u32, name: u32) -> bool
    requires object { HasObject rule.now object.0 }
    requires tuple { length tuple.now ≡ sum rule.now.goal.left.sizes }
    requires part { part < size_of rule.now.goal.left object.0 }
    ensures { result ≡ (not (is_image rule.now.l object.0 part) && map_of_tuple rule.now.goal.left tuple.now object.0 part == name) }
{
    !is_kept(rule, object, part) && name_of_left(rule, tuple, object, part) == name
}

/// The name that the match gives to a part of the left side.
pub fn name_of_left(rule: &Rule, tuple: &Tuple, object: ObjectId, part: u32) -> u32
    requires object { HasObject rule.now object.0 }
    requires tuple { length tuple.now ≡ sum rule.now.goal.left.sizes }
    requires part { part < size_of rule.now.goal.left object.0 }
    ensures { result ≡ map_of_tuple rule.now.goal.left tuple.now object.0 part }
{
    tuple.names()[rule.goal().left.place(object, part)]
}

/// Whether the part of the left side is kept.
pub fn is_kept(rule: &Rule, object: ObjectId, part: u32) -> bool
    requires { HasObject rule.now object.0 }
    ensures { result ≡ is_image rule.now.l object.0 part }
{
    has_number(rule.l().images(object), part)
}
