//! Whether parts are a rule.

ghost use Rattle.std.specs.Prelude.{◌≡◌, ◌<◌, ◌≤◌, ◌^◌, IfOk, length};
ghost use Rattle.rw_schema.specs.First.{or_else};
ghost use Rattle.rw_schema.specs.Presentation.{signature_of};
ghost use Rattle.rw_rule.specs.RuleFaults.{AreOver, HasFault, is_apart as is_apart_rule, rule_fault};
ghost use Rattle.rw_rule.specs.RuleParts.{rule_of_parts};
ghost use Rattle.rw_rule.specs.Sets.{bad_set, set_again, unbound_set, value_missing};

use crate::cycle::has_cycle;
use crate::given::first_value_missing;
use crate::images::is_one_to_one;
use crate::maps::are_maps;
use crate::sets::{first_bad_set, first_set_again, first_unbound_set};
use crate::{RuleFault, RuleParts};
use rw_schema::{OutOfMemory, Schema};
use std::alloc::Global;

/// The first condition that fails, where so many operations are there.
pub fn first_fault(
    alloc: Global,
    schema: &Schema,
    parts: &RuleParts,
    ops: usize,
) -> Result<Option<RuleFault>, OutOfMemory>
    requires over { AreOver (signature_of schema.now) (rule_of_parts parts.now) }
    requires few { length parts.now.sets.items < 2 ^ 32 }
    ensures { IfOk result (HasFault (signature_of schema.now) ops (rule_of_parts parts.now)) }
{
    let cyclic = has_cycle(alloc, schema)?;
    Ok(fault_of(schema, parts, ops, cyclic))
}

/// The first condition that fails, where it is known whether arrows of the schema lead round a cycle.
fn fault_of(schema: &Schema, parts: &RuleParts, ops: usize, cyclic: bool) -> Option<RuleFault>
    requires over { AreOver (signature_of schema.now) (rule_of_parts parts.now) }
    requires few { length parts.now.sets.items < 2 ^ 32 }
    ensures { result ≡ rule_fault (signature_of schema.now) ops cyclic (rule_of_parts parts.now) }
{
    if !are_maps(schema, parts) {
        return Some(RuleFault::NotHom);
    }
    if !is_apart(parts) {
        return Some(RuleFault::NotInjective);
    }
    if parts.kind.is_sqpo() && cyclic {
        return Some(RuleFault::CyclicSqpo);
    }
    first_set_fault(schema, parts, ops)
}

/// Whether no two kept parts of an object have one left part, or the kind allows it.
fn is_apart(parts: &RuleParts) -> bool
    requires { length parts.now.keep.sizes ≤ length parts.now.l }
    ensures { result ≡ is_apart_rule (rule_of_parts parts.now) }
{
    parts.kind.is_sqpo() || is_one_to_one(&parts.keep, &parts.l)
}

/// The first condition on the sets that fails.
fn first_set_fault(schema: &Schema, parts: &RuleParts, ops: usize) -> Option<RuleFault>
    requires over { AreOver (signature_of schema.now) (rule_of_parts parts.now) }
    requires few { length parts.now.sets.items < 2 ^ 32 }
    requires images { length schema.now.objects ≤ length parts.now.r }
    ensures { result ≡ or_else (unbound_set (rule_of_parts parts.now))
        (or_else (bad_set (signature_of schema.now) ops (rule_of_parts parts.now))
        (or_else (set_again (rule_of_parts parts.now).sets)
        (value_missing (signature_of schema.now) (rule_of_parts parts.now)))) }
{
    if let Some(fault) = first_unbound_set(parts) {
        return Some(fault);
    }
    if let Some(fault) = first_bad_set(schema, parts, ops) {
        return Some(fault);
    }
    if let Some(fault) = first_set_again(parts.sets.as_slice()) {
        return Some(fault);
    }
    first_value_missing(schema, parts)
}
