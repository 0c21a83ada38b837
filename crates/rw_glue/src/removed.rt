//! The names that go.

ghost use Rattle.std.specs.Prelude.{◌≡◌, ◌⊎◌, ◌<◌, ◌++◌, Contains, IfOk, OnOk, [], length, map};
ghost use Rattle.rw_columns.specs.Changes.{entry_names};
ghost use Rattle.rw_columns.specs.inner.Filled.{AreAll};
ghost use Rattle.rw_delta.specs.Deltas.{IsListOf};
ghost use Rattle.rw_glue.specs.inner.Changed.{AreRemoved};

use crate::lists::{add_list, copied, list_of};
use rw_delta::put_in_order;
use rw_schema::OutOfMemory;
use std::alloc::Global;

/// Of each object the names that the context has not, and those that get another name.
pub fn removed_lists(
    alloc: Global,
    gone: &[Vec<u32>],
    moved: &[Vec<(u32, u32)>],
) -> Result<Vec<Vec<u32>>, OutOfMemory>
    requires { length moved.now ≡ length gone.now }
    ensures { IfOk result (λ lists. AreAll [] (AreRemoved (map (λ list. list.items) gone.now) (map (λ list. list.items) moved.now)) (length gone.now) (map (λ list. list.items) lists.items)) }
{
    let mut lists = Vec::new(alloc);
    for place in 0..gone.len() {
        add_list(
            &mut lists,
            removed_names(alloc, list_of(gone, place), list_of(moved, place))?,
        )?;
    }
    Ok(lists)
}

/// The names of both lists, in one order.
fn removed_names(alloc: Global, gone: &[u32], moved: &[(u32, u32)]) -> Result<Vec<u32>, OutOfMemory>
    ensures { IfOk result (λ names. IsListOf (λ x. Contains gone.now x ⊎ Contains (entry_names moved.now) x) names.items) }
{
    let mut names = copied(alloc, gone)?;
    append_names(&mut names, moved)?;
    put_in_order(&mut names);
    Ok(names)
}

/// Appends the names of the entries.
fn append_names(names: &mut Vec<u32>, entries: &[(u32, u32)]) -> Result<(), OutOfMemory>
    ensures { OnOk result (names.new.items ≡ names.old.items ++ entry_names entries.now) }
{
    for entry in entries {
        names.push(entry.0)?;
    }
    Ok(())
}
