//! Parts that a match identifies though one of them goes.

ghost use Rattle.std.specs.Prelude.{◌≡◌, ◌<◌, ℕ, length, sum};
ghost use Rattle.rw_pattern.specs.PatternLists.{size_of};
ghost use Rattle.rw_redex.specs.Gluing.{identification, identification_at as identification_at_object, identification_of as identification_of_part, identifies as are_identified};
ghost use Rattle.rw_redex.specs.RuleParts.{HasObject};

use rw_pattern::Tuple;
use rw_redex::{is_kept, name_of_left};
use rw_rule::{Refusal, Rule};
use rw_schema::ObjectId;

/// The first object with two parts of the left side that have one name and do not both stay, and the first two of these.
pub(crate) fn first_identification(rule: &Rule, tuple: &Tuple) -> Option<Refusal>
    requires objects { (object : ℕ) → object < length rule.now.goal.left.sizes → HasObject rule.now object }
    requires tuple { length tuple.now ≡ sum rule.now.goal.left.sizes }
    ensures { result ≡ identification rule.now tuple.now }
{
    for object in 0..rule.goal().left.sizes().len() {
        if let Some(refusal) = identification_at(rule, tuple, ObjectId(object as u16)) {
            return Some(refusal);
        }
    }
    None
}

/// The first two parts of the object that have one name and do not both stay.
fn identification_at(rule: &Rule, tuple: &Tuple, object: ObjectId) -> Option<Refusal>
    requires object { HasObject rule.now object.0 }
    requires tuple { length tuple.now ≡ sum rule.now.goal.left.sizes }
    ensures { result ≡ identification_at_object rule.now tuple.now object.0 (size_of rule.now.goal.left object.0) }
{
    for first in 0..rule.goal().left.size(object) {
        if let Some(refusal) = identification_of(rule, tuple, object, first) {
            return Some(refusal);
        }
    }
    None
}

/// The first later part that has the name of this one and does not stay beside it.
fn identification_of(rule: &Rule, tuple: &Tuple, object: ObjectId, first: u32) -> Option<Refusal>
    requires object { HasObject rule.now object.0 }
    requires tuple { length tuple.now ≡ sum rule.now.goal.left.sizes }
    requires first { first < size_of rule.now.goal.left object.0 }
    ensures { result ≡ identification_of_part rule.now tuple.now object.0 first }
{
    for second in 0..rule.goal().left.size(object) {
        if identifies(rule, tuple, object, first, second) {
            return Some(Refusal::Identification {
                object,
                first,
                second,
            });
        }
    }
    None
}

/// Whether the two parts, in this order, have one name and do not both stay.
fn identifies(rule: &Rule, tuple: &Tuple, object: ObjectId, first: u32, second: u32) -> bool
    requires object { HasObject rule.now object.0 }
    requires tuple { length tuple.now ≡ sum rule.now.goal.left.sizes }
    requires first { first < size_of rule.now.goal.left object.0 }
    requires second { second < size_of rule.now.goal.left object.0 }
    ensures { result ≡ are_identified rule.now tuple.now object.0 first second }
{
    first < second
        && name_of_left(rule, tuple, object, first) == name_of_left(rule, tuple, object, second)
        && !(is_kept(rule, object, first) && is_kept(rule, object, second))
}
