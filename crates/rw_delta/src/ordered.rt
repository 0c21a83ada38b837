//! Names in ascending order, each once.

ghost use Rattle.std.specs.Prelude.{◌≡◌, ◌⊎◌, ◌<◌, ◌++◌, IfOk, OnOk, [], length, map, Contains};
ghost use Rattle.rw_schema.specs.RowLists.{list_at};
ghost use Rattle.rw_columns.specs.inner.Filled.{AreAll};
ghost use Rattle.rw_delta.specs.Deltas.{IsListOf};
ghost use Rattle.rw_delta.specs.inner.Gathered.{AreJoined};

use rw_schema::OutOfMemory;
use std::alloc::Global;

/// Puts the names in ascending order, each once.
pub fn put_in_order(names: &mut Vec<u32>)
    ensures { IsListOf (Contains names.old.items) names.new.items }
{
    names.sort_unstable();
    names.dedup();
}

/// Of each object the names of two lists, in one order.
pub fn joined_lists(
    alloc: Global,
    first: &[Vec<u32>],
    second: &[Vec<u32>],
) -> Result<Vec<Vec<u32>>, OutOfMemory>
    requires { length second.now ≡ length first.now }
    ensures { IfOk result (λ lists. AreAll [] (AreJoined (map (λ list. list.items) first.now) (map (λ list. list.items) second.now)) (length first.now) (map (λ list. list.items) lists.items)) }
{
    let mut lists = Vec::new(alloc);
    for place in 0..first.len() {
        lists.push(joined(alloc, list_of(first, place), list_of(second, place))?)?;
    }
    Ok(lists)
}

/// The names of both lists, in one order.
fn joined(alloc: Global, first: &[u32], second: &[u32]) -> Result<Vec<u32>, OutOfMemory>
    ensures { IfOk result (λ names. IsListOf (λ x. Contains first.now x ⊎ Contains second.now x) names.items) }
{
    let mut names = Vec::new(alloc);
    append_all(&mut names, first)?;
    append_all(&mut names, second)?;
    put_in_order(&mut names);
    Ok(names)
}

/// Appends the names.
fn append_all(names: &mut Vec<u32>, more: &[u32]) -> Result<(), OutOfMemory>
    ensures { OnOk result (names.new.items ≡ names.old.items ++ more.now) }
{
    for name in more {
        names.push(*name)?;
    }
    Ok(())
}

/// The list at the place.
pub fn list_of(lists: &[Vec<u32>], place: usize) -> &[u32]
    requires { place < length lists.now }
    ensures { result.now ≡ list_at (map (λ list. list.items) lists.now) place }
{
    lists[place].as_slice()
}
