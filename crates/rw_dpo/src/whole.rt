//! What a double pushout leaves whole.

ghost use Rattle.std.specs.Prelude.{◌≡◌, ◌<◌, ◌≤◌, [], IfOk, length, map, replicate};
ghost use Rattle.std.specs.List.{range_with_len};
ghost use Rattle.rw_schema.specs.declared.signature.AttrEnds.{AttrEnds};
ghost use Rattle.rw_schema.specs.Presentation.{signature_of};
ghost use Rattle.rw_dpo.specs.Contexts.{all_stay as all_stay_of};

use rw_pattern::Pattern;
use rw_schema::{ObjectId, OutOfMemory, Schema};
use std::alloc::Global;

/// Of each object that each of its parts stays.
pub(crate) fn stay_lists(
    alloc: Global,
    pattern: &Pattern,
    objects: usize,
) -> Result<Vec<Vec<bool>>, OutOfMemory>
    requires few { objects ≤ 64 }
    requires sizes { objects ≤ length pattern.now.sizes }
    ensures { IfOk result (λ lists. map (λ list. list.items) lists.items ≡ map (all_stay_of pattern.now) (range_with_len 0 objects)) }
{
    let mut lists = Vec::new(alloc);
    for object in 0..objects {
        lists.push(all_stay(alloc, pattern, ObjectId(object as u16))?)?;
    }
    Ok(lists)
}

/// Of each attribute that the cell of each part of its object stays.
pub(crate) fn cells_stay(
    alloc: Global,
    schema: &Schema,
    pattern: &Pattern,
) -> Result<Vec<Vec<bool>>, OutOfMemory>
    requires { length pattern.now.sizes ≡ length schema.now.objects }
    ensures { IfOk result (λ lists. map (λ list. list.items) lists.items ≡ map (λ (ends : AttrEnds). all_stay_of pattern.now ends.object.0) (signature_of schema.now).attributes) }
{
    let mut lists = Vec::new(alloc);
    for ends in schema.attribute_list() {
        lists.push(all_stay(alloc, pattern, ends.object)?)?;
    }
    Ok(lists)
}

/// Of each part of the object that it stays.
fn all_stay(alloc: Global, pattern: &Pattern, object: ObjectId) -> Result<Vec<bool>, OutOfMemory>
    requires { object.0 < length pattern.now.sizes }
    ensures { IfOk result (λ list. list.items ≡ all_stay_of pattern.now object.0) }
{
    Ok(vec![in alloc; true; pattern.size(object) as usize]?)
}

/// Empty lists.
pub fn empty_lists(alloc: Global, count: usize) -> Result<Vec<Vec<(u32, u32)>>, OutOfMemory>
    ensures { IfOk result (λ lists. map (λ list. list.items) lists.items ≡ replicate count []) }
{
    let mut lists = Vec::new(alloc);
    for place in 0..count {
        let _place = place;
        lists.push(Vec::new(alloc))?;
    }
    Ok(lists)
}
