//! The names of kept parts.

ghost use Rattle.std.specs.Prelude.{◌≡◌, ◌<◌, ◌≤◌, ℕ, IfOk, map};
ghost use Rattle.std.specs.List.{range_with_len};
ghost use Rattle.rw_pattern.specs.PatternLists.{size_of};
ghost use Rattle.rw_dpo.specs.Contexts.{kept_names as kept_names_of, name_of_kept as kept_name};
ghost use Rattle.rw_dpo.specs.inner.Site.{HasKept};

use rw_pattern::Tuple;
use rw_redex::name_of_left;
use rw_rule::Rule;
use rw_schema::{ObjectId, OutOfMemory};
use std::alloc::Global;

/// Of each object the names of its kept parts.
pub(crate) fn kept_lists(
    alloc: Global,
    rule: &Rule,
    tuple: &Tuple,
    objects: usize,
) -> Result<Vec<Vec<Option<u32>>>, OutOfMemory>
    requires few { objects ≤ 64 }
    requires kept { (object : ℕ) → object < objects → HasKept rule.now tuple.now object }
    ensures { IfOk result (λ lists. map (λ list. list.items) lists.items ≡ map (kept_names_of rule.now tuple.now) (range_with_len 0 objects)) }
{
    let mut lists = Vec::new(alloc);
    for object in 0..objects {
        lists.push(kept_names(alloc, rule, tuple, ObjectId(object as u16))?)?;
    }
    Ok(lists)
}

/// The names of the kept parts of an object.
fn kept_names(
    alloc: Global,
    rule: &Rule,
    tuple: &Tuple,
    object: ObjectId,
) -> Result<Vec<Option<u32>>, OutOfMemory>
    requires kept { HasKept rule.now tuple.now object.0 }
    ensures { IfOk result (λ names. names.items ≡ kept_names_of rule.now tuple.now object.0) }
{
    let mut names = Vec::new(alloc);
    for part in 0..rule.keep().size(object) {
        names.push(Some(name_of_kept(rule, tuple, object, part)))?;
    }
    Ok(names)
}

/// The name of a kept part.
pub fn name_of_kept(rule: &Rule, tuple: &Tuple, object: ObjectId, part: u32) -> u32
    requires kept { HasKept rule.now tuple.now object.0 }
    requires part { part < size_of rule.now.keep object.0 }
    ensures { result ≡ kept_name rule.now tuple.now object.0 part }
{
    name_of_left(rule, tuple, object, rule.l().image(object, part as usize))
}
