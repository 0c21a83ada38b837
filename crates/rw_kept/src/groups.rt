//! Tuples are grouped by what they extend.

ghost use Rattle.std.specs.Prelude.{◌≡◌, ◌<◌, ◌++◌, ◌∷◌, [], Contains, IfOk, IfSome, MatchOption, OnOk, length, map, slice_index, slice_set};
ghost use Rattle.std.specs.Cmp.Lexicographic.{slice_cmp};
ghost use Rattle.std.specs.List.Sorted.{IsStrictlySortedBy};
ghost use Rattle.std.specs.Ordering.{nat_cmp};
ghost use Rattle.std.specs.Str.{bytes_eq};
ghost use Rattle.rw_kept.specs.inner.Groups.{AreGroups, group_at, put_at, tuple_at};

use crate::restrict::restricted;
use rw_pattern::Tuple;
use rw_schema::OutOfMemory;
use std::alloc::Global;

/// An empty group for each match.
fn empty_groups(alloc: Global, matches: &[Tuple]) -> Result<Vec<Vec<Tuple>>, OutOfMemory>
    ensures { IfOk result (λ groups. map (λ group. group.items) groups.items ≡ map (λ tuple. []) matches.now) }
{
    let mut groups = Vec::new(alloc);
    for _tuple in matches {
        groups.push(Vec::new(alloc))?;
    }
    Ok(groups)
}

/// Where the tuple stands among the matches.
fn place_of(matches: &[Tuple], tuple: &Tuple) -> Option<usize>
    requires { IsStrictlySortedBy (slice_cmp nat_cmp) matches.now }
    ensures { MatchOption result (Contains matches.now tuple.now → ⊥) (λ place. (place < length matches.now) × (tuple_at matches.now place ≡ tuple.now)) }
{
    matches.binary_search(tuple).ok()
}

/// Adds the tuple to the group at the place.
fn add(groups: &mut [Vec<Tuple>], place: usize, tuple: Tuple) -> Result<(), OutOfMemory>
    requires { place < length groups.old }
    ensures { OnOk result (map (λ group. group.items) groups.new
        ≡ slice_set (map (λ group. group.items) groups.old) place (group_at (map (λ group. group.items) groups.old) place ++ tuple ∷ [])) }
{
    groups[place].push(tuple)?;
    Ok(())
}

/// Adds the tuple to the group at the place, where one is given.
fn add_found(
    groups: &mut [Vec<Tuple>],
    place: Option<usize>,
    tuple: Tuple,
) -> Result<(), OutOfMemory>
    requires { IfSome place (λ place. place < length groups.old) }
    ensures { OnOk result (map (λ group. group.items) groups.new ≡ put_at (map (λ group. group.items) groups.old) place tuple) }
{
    match place {
        Some(place) => add(groups, place, tuple),
        None => Ok(()),
    }
}

/// Adds each tuple to the group of the match that it extends.
fn add_tuples(
    alloc: Global,
    matches: &[Tuple],
    places: &[usize],
    tuples: &[Tuple],
    groups: &mut [Vec<Tuple>],
) -> Result<(), OutOfMemory>
    requires ascend { IsStrictlySortedBy (slice_cmp nat_cmp) matches.now }
    requires groups { AreGroups (λ m q. bytes_eq (map (slice_index q) places.now) m) [] matches.now (map (λ group. group.items) groups.old) }
    ensures { OnOk result (AreGroups (λ m q. bytes_eq (map (slice_index q) places.now) m) tuples.now matches.now (map (λ group. group.items) groups.new)) }
{
    for tuple in tuples {
        let extended = restricted(alloc, places, tuple.names())?;
        let copy = tuple.copy(alloc)?;
        add_found(groups, place_of(matches, &extended), copy)?;
    }
    Ok(())
}

/// Of each match those of the tuples that have its names at the places, in their order. The time is that of a search among the
/// matches for each tuple.
pub(crate) fn grouped(
    alloc: Global,
    matches: &[Tuple],
    places: &[usize],
    tuples: &[Tuple],
) -> Result<Vec<Vec<Tuple>>, OutOfMemory>
    requires { IsStrictlySortedBy (slice_cmp nat_cmp) matches.now }
    ensures { IfOk result (λ groups. AreGroups (λ m q. bytes_eq (map (slice_index q) places.now) m) tuples.now matches.now (map (λ group. group.items) groups.items)) }
{
    let mut groups = empty_groups(alloc, matches)?;
    add_tuples(alloc, matches, places, tuples, groups.as_mut_slice())?;
    Ok(groups)
}
