//! Where the kept parts of a rule are in a context.

ghost use Rattle.std.specs.Prelude.{◌≡◌, ◌<◌, ◌≤◌, All, Contains, IfOk, IsSome, Some, [], length, map};
ghost use Rattle.rw_columns.specs.inner.Filled.{AreAll};
ghost use Rattle.rw_delta.specs.Deltas.{IsListOf};
ghost use Rattle.rw_glue.specs.inner.Sides.{IsTouched};

use crate::lists::add_list;
use rw_delta::put_in_order;
use rw_schema::{ObjectId, OutOfMemory, PartMap};
use std::alloc::Global;

/// Of each object the names of its kept parts. None of these is dropped.
pub fn kept_lists(alloc: Global, of_keep: &[Vec<Option<u32>>]) -> Result<PartMap, OutOfMemory>
    requires { All (All IsSome) (map (λ list. list.items) of_keep.now) }
    ensures { IfOk result (λ images. map (map (λ name. Some name)) images ≡ map (λ list. list.items) of_keep.now) }
{
    let mut lists = Vec::new(alloc);
    for list in of_keep {
        add_list(&mut lists, kept_names(alloc, list.as_slice())?)?;
    }
    Ok(PartMap::from_lists(lists))
}

/// The names of the kept parts of one object.
fn kept_names(alloc: Global, of_keep: &[Option<u32>]) -> Result<Vec<u32>, OutOfMemory>
    requires { All IsSome of_keep.now }
    ensures { IfOk result (λ names. map (λ name. Some name) names.items ≡ of_keep.now) }
{
    let mut names = Vec::new(alloc);
    for name in of_keep {
        names.push(name.unwrap())?;
    }
    Ok(names)
}

/// Of each object the names that are under kept parts.
pub fn touched_lists(
    alloc: Global,
    images: &PartMap,
    objects: usize,
) -> Result<Vec<Vec<u32>>, OutOfMemory>
    requires few { objects ≤ 64 }
    requires lists { objects ≤ length images.now }
    ensures { IfOk result (λ lists. AreAll [] (IsTouched images.now) objects (map (λ list. list.items) lists.items)) }
{
    let mut lists = Vec::new(alloc);
    for object in 0..objects {
        add_list(
            &mut lists,
            in_order(alloc, images.images(ObjectId(object as u16)))?,
        )?;
    }
    Ok(lists)
}

/// The names in ascending order, each once.
fn in_order(alloc: Global, names: &[u32]) -> Result<Vec<u32>, OutOfMemory>
    ensures { IfOk result (λ list. IsListOf (Contains names.now) list.items) }
{
    let mut list = names.to_vec(alloc)?;
    put_in_order(&mut list);
    Ok(list)
}
