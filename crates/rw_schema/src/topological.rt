//! Orders of a schema's objects in which arrows point backwards.

ghost use Rattle.std.specs.Prelude.{◌≡◌, ◌≤◌, true, map, IfOk};
ghost use Rattle.std.specs.List.{list_all};
ghost use Rattle.std.specs.Option.{option_map};
ghost use Rattle.rw_schema.specs.Presentation.{ends_of_arrow};
ghost use Rattle.rw_schema.specs.SchemaFaults.{has_ends};
ghost use Rattle.rw_schema.specs.Signature.{Signature};
ghost use Rattle.rw_schema.specs.Topological.{OrdersObjects};
ghost use Rattle.rw_schema.specs.inner.Topological.{is_placed, is_back, is_ready, is_next, IsNextOf};

use crate::{ArrowDef, ObjectId, OutOfMemory};
use std::alloc::Global;

/// Whether the object is among those placed.
fn is_object_placed(placed: &[ObjectId], object: usize) -> bool
    ensures { result ≡ is_placed placed.now object }
{
    placed.iter().any(|other| object == other.0 as usize)
}

/// Whether the arrow does not leave the object, or leads to a placed one.
fn leads_back(placed: &[ObjectId], object: usize, arrow: &ArrowDef) -> bool
    ensures { result ≡ is_back placed.now object arrow.now }
{
    object != arrow.source.0 as usize || is_object_placed(placed, arrow.target.0 as usize)
}

/// Whether each arrow of the object leads to a placed one.
fn is_object_ready(arrows: &[ArrowDef], placed: &[ObjectId], object: usize) -> bool
    ensures { result ≡ is_ready arrows.now placed.now object }
{
    arrows.iter().all(|arrow| leads_back(placed, object, arrow))
}

/// Whether the object is not placed yet, and each of its arrows leads to a placed one.
fn is_object_next(arrows: &[ArrowDef], placed: &[ObjectId], object: usize) -> bool
    ensures { result ≡ is_next arrows.now placed.now object }
{
    !is_object_placed(placed, object) && is_object_ready(arrows, placed, object)
}

/// The least object that can be placed next.
fn next_object(objects: usize, arrows: &[ArrowDef], placed: &[ObjectId]) -> Option<ObjectId>
    requires { objects ≤ 64 }
    ensures { IsNextOf objects arrows.now placed.now result }
{
    for object in 0..objects {
        if is_object_next(arrows, placed, object) {
            return Some(ObjectId(object as u16));
        }
    }
    None
}

/// An order of the objects in which the target of each arrow stands before its source, or nothing where
/// arrows lead round a cycle.
///
/// In each round the least object is placed whose arrows all lead to placed ones (Kahn, "Topological
/// sorting of large networks", 1962).
pub(crate) fn order_of(
    alloc: Global,
    objects: usize,
    arrows: &[ArrowDef],
) -> Result<Option<Vec<ObjectId>>, OutOfMemory>
    requires few { objects ≤ 64 }
    requires ends { list_all (has_ends objects) arrows.now ≡ true }
    ensures { (C : Signature) → C.objects ≡ objects → C.arrows ≡ map ends_of_arrow arrows.now
        → IfOk result (λ order. OrdersObjects C (option_map (λ list. list.items) order)) }
{
    let mut placed = Vec::new(alloc);
    for round in 0..objects {
        let Some(object) = next_object(objects, arrows, placed.as_slice()) else {
            return Ok(None);
        };
        placed.push(object)?;
    }
    Ok(Some(placed))
}
