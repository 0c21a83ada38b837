//! Whether arrows of a schema lead round a cycle.

ghost use Rattle.std.specs.Prelude.{◌≡◌, ◌&&◌, Bool, IfOk};
ghost use Rattle.rw_schema.specs.Presentation.{signature_of};
ghost use Rattle.rw_rule.specs.RuleFaults.{TellsCycle, is_sqpo};

use crate::RuleKind;
use rw_schema::{OutOfMemory, Schema};
use std::alloc::Global;

/// Whether arrows of the schema lead round a cycle.
pub fn has_cycle(alloc: Global, schema: &Schema) -> Result<bool, OutOfMemory>
    ensures { IfOk result (TellsCycle (signature_of schema.now)) }
{
    let order = schema.topological(alloc)?;
    Ok(order.is_none())
}

/// Whether the kind is that of a sesqui-pushout, and arrows of the schema lead round a cycle.
pub fn is_cyclic_sqpo(alloc: Global, schema: &Schema, kind: RuleKind) -> Result<bool, OutOfMemory>
    ensures { IfOk result (λ both. (cyclic : Bool) × TellsCycle (signature_of schema.now) cyclic × (both ≡ (is_sqpo kind && cyclic))) }
{
    let cyclic = has_cycle(alloc, schema)?;
    Ok(kind.is_sqpo() && cyclic)
}
