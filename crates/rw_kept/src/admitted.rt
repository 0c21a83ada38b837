//! The matches that meet the conditions.

ghost use Rattle.std.specs.Prelude.{◌≡◌, ◌<◌, ◌++◌, ◌∷◌, [], All, IfOk, OnOk, length, map, if◌then◌else◌};
ghost use Rattle.rw_kept.specs.Conditions.{is_satisfied as satisfied};
ghost use Rattle.rw_kept.specs.inner.Groups.{has_some as some_in, is_met_at as met_at, are_met_at as all_met_at, met_matches};

use rw_pattern::Tuple;
use rw_rule::Condition;
use rw_schema::OutOfMemory;
use std::alloc::Global;

/// Whether a tuple is in the group.
fn has_some(group: &[Tuple]) -> bool
    ensures { result ≡ some_in group.now }
{
    !group.is_empty()
}

/// A positive condition wants an extension, a negative one wants none.
fn is_satisfied(positive: bool, found: bool) -> bool
    ensures { result ≡ satisfied positive found }
{
    if positive { found } else { !found }
}

/// Whether each condition has at the place what it wants.
fn are_met_at(conditions: &[Condition], groups: &[Vec<Vec<Tuple>>], place: usize) -> bool
    requires count { length groups.now ≡ length conditions.now }
    requires places { All (λ of_condition. place < length of_condition.items) groups.now }
    ensures { result ≡ all_met_at conditions.now (map (λ of_condition. map (λ group. group.items) of_condition.items) groups.now) place }
{
    for (number, condition) in conditions.iter().enumerate() {
        let found = has_some(groups[number][place].as_slice());
        if !is_satisfied(condition.positive, found) {
            return false;
        }
    }
    true
}

/// Puts a copy of the tuple behind the others, where it is met.
fn push_if(
    alloc: Global,
    met: bool,
    tuple: &Tuple,
    list: &mut Vec<Tuple>,
) -> Result<(), OutOfMemory>
    ensures { OnOk result (list.new.items ≡ list.old.items ++ (if met then tuple.now ∷ [] else [])) }
{
    if met {
        list.push(tuple.copy(alloc)?)?;
    }
    Ok(())
}

/// Copies of the matches at whose places each condition has what it wants.
pub(crate) fn admitted(
    alloc: Global,
    conditions: &[Condition],
    groups: &[Vec<Vec<Tuple>>],
    matches: &[Tuple],
) -> Result<Vec<Tuple>, OutOfMemory>
    requires count { length groups.now ≡ length conditions.now }
    requires places { All (λ of_condition. length of_condition.items ≡ length matches.now) groups.now }
    ensures { IfOk result (λ list. list.items ≡ met_matches conditions.now (map (λ of_condition. map (λ group. group.items) of_condition.items) groups.now) matches.now) }
{
    let mut list = Vec::new(alloc);
    for (place, tuple) in matches.iter().enumerate() {
        push_if(
            alloc,
            are_met_at(conditions, groups, place),
            tuple,
            &mut list,
        )?;
    }
    Ok(list)
}
