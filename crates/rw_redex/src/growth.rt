//! The new parts of the right side, and whether there is room for their names.

ghost use Rattle.std.specs.Prelude.{◌≡◌, ◌+◌, ◌≤◌, IfOk, not, nat_le, length};
ghost use Rattle.rw_schema.specs.Presentation.{signature_of};
ghost use Rattle.rw_rule.specs.Images.{is_image};
ghost use Rattle.rw_redex.specs.NewParts.{new_parts as new_parts_of, new_before as new_parts_before};
ghost use Rattle.rw_redex.specs.Obstructions.{too_large, most_names};
ghost use Rattle.rw_redex.specs.RuleParts.{IsSpanOver, HasObject};

use rw_rule::{Refusal, Rule};
use rw_schema::{ObjectId, OutOfMemory, Schema, has_number};
use std::alloc::Global;

/// The greatest next name.
const MOST_NAMES: u64 = 16_777_216;

/// The new parts of an object, ascending.
pub fn new_parts(alloc: Global, rule: &Rule, object: ObjectId) -> Result<Vec<u32>, OutOfMemory>
    requires { HasObject rule.now object.0 }
    ensures { IfOk result (λ parts. parts.items ≡ new_parts_of rule.now object.0) }
{
    let mut parts = Vec::new(alloc);
    for part in 0..rule.right().size(object) {
        if is_new(rule, object, part) {
            parts.push(part)?;
        }
    }
    Ok(parts)
}

/// How many new parts of an object there are before a part.
pub fn new_before(rule: &Rule, object: ObjectId, part: u32) -> u32
    requires { HasObject rule.now object.0 }
    ensures value { result ≡ new_parts_before rule.now object.0 part }
    ensures few { result ≤ part }
{
    let mut count = 0;
    for other in 0..part {
        if is_new(rule, object, other) {
            count += 1;
        }
    }
    count
}

/// Whether the part of the right side is new.
pub fn is_new(rule: &Rule, object: ObjectId, part: u32) -> bool
    requires { HasObject rule.now object.0 }
    ensures { result ≡ not (is_image rule.now.r object.0 part) }
{
    !has_number(rule.r().images(object), part)
}

/// The next name of an object after the step, where it is the given one before.
pub fn next_after(rule: &Rule, object: ObjectId, next: u32) -> u32
    requires object { HasObject rule.now object.0 }
    requires room { next + length (new_parts_of rule.now object.0) ≤ most_names }
    ensures { result ≡ next + length (new_parts_of rule.now object.0) }
{
    next + new_before(rule, object, rule.right().size(object))
}

/// Whether the next name of an object after the step is at most the greatest one, where it is the given one before.
pub fn has_room(rule: &Rule, object: ObjectId, next: u32) -> bool
    requires { HasObject rule.now object.0 }
    ensures { result ≡ nat_le (next + length (new_parts_of rule.now object.0)) most_names }
{
    let count = new_before(rule, object, rule.right().size(object));
    u64::from(next) + u64::from(count) <= MOST_NAMES
}

/// The first object whose next name would pass the greatest one. Of each object the next name before the step is given.
pub fn first_too_large(schema: &Schema, rule: &Rule, next: &[u32]) -> Option<Refusal>
    requires rule { IsSpanOver (signature_of schema.now) rule.now }
    requires next { length next.now ≡ length schema.now.objects }
    ensures { result ≡ too_large rule.now next.now }
{
    for number in 0..schema.objects() {
        let object = ObjectId(number as u16);
        if !has_room(rule, object, next[number]) {
            return Some(Refusal::TooLarge { object });
        }
    }
    None
}
