//! The names that are removed.

ghost use Rattle.std.specs.Prelude.{◌≡◌, ◌<◌, ◌≤◌, IfOk, filter, length, map, not, sum};
ghost use Rattle.std.specs.List.{range_with_len};
ghost use Rattle.rw_schema.specs.Signature.{Signature};
ghost use Rattle.rw_spec.specs.Instance.{Instance};
ghost use Rattle.rw_pattern.specs.PatternLists.{map_of_tuple};
ghost use Rattle.rw_redex.specs.RuleParts.{HasObject};
ghost use Rattle.rw_rule.specs.Images.{is_image, parts_of};
ghost use Rattle.rw_dpo.specs.Contexts.{removed_names as removed_names_of};
ghost use Rattle.rw_dpo.specs.inner.Site.{IsSite};

use rw_delta::{Probe, put_in_order};
use rw_pattern::Tuple;
use rw_redex::{is_kept, name_of_left};
use rw_rule::Rule;
use rw_schema::{ObjectId, OutOfMemory};
use std::alloc::Global;

/// Of each object the names that are removed, in ascending order.
pub(crate) fn removed_lists<P: Probe>(
    alloc: Global,
    probe: &P,
    rule: &Rule,
    tuple: &Tuple,
    objects: usize,
) -> Result<Vec<Vec<u32>>, OutOfMemory>
    requires few { objects ≤ 64 }
    requires objects { objects ≡ (P.signature probe.now).objects }
    requires site { IsSite (P.signature probe.now) rule.now tuple.now (P.instance probe.now) }
    ensures { IfOk result (λ lists. map (λ list. list.items) lists.items ≡ map (removed_names_of rule.now tuple.now (P.instance probe.now)) (range_with_len 0 objects)) }
{
    let mut lists = Vec::new(alloc);
    for object in 0..objects {
        lists.push(removed_names(alloc, probe, rule, tuple, ObjectId(object as u16))?)?;
    }
    Ok(lists)
}

/// The names of an object that are removed, in ascending order.
fn removed_names<P: Probe>(
    alloc: Global,
    _probe: &P,
    rule: &Rule,
    tuple: &Tuple,
    object: ObjectId,
) -> Result<Vec<u32>, OutOfMemory>
    requires object { object.0 < (P.signature _probe.now).objects }
    requires site { IsSite (P.signature _probe.now) rule.now tuple.now (P.instance _probe.now) }
    ensures { IfOk result (λ names. names.items ≡ removed_names_of rule.now tuple.now (P.instance _probe.now) object.0) }
{
    let mut names = names_of_unkept(alloc, rule, tuple, object)?;
    put_in_order(&mut names);
    Ok(names)
}

/// The names of the object's parts that are not kept, in the order of the parts.
fn names_of_unkept(
    alloc: Global,
    rule: &Rule,
    tuple: &Tuple,
    object: ObjectId,
) -> Result<Vec<u32>, OutOfMemory>
    requires object { HasObject rule.now object.0 }
    requires tuple { length tuple.now ≡ sum rule.now.goal.left.sizes }
    ensures { IfOk result (λ names. names.items ≡ map (map_of_tuple rule.now.goal.left tuple.now object.0) (filter (λ part. not (is_image rule.now.l object.0 part)) (parts_of rule.now.goal.left object.0))) }
{
    let mut names = Vec::new(alloc);
    for part in 0..rule.goal().left.size(object) {
        if !is_kept(rule, object, part) {
            names.push(name_of_left(rule, tuple, object, part))?;
        }
    }
    Ok(names)
}
