//! The context of a step and the right side, glued.

ghost use Rattle.std.specs.Prelude.{◌≡◌, List, None, length, option_and_then};
ghost use Rattle.std.specs.Option.{option_map};
ghost use Rattle.rw_schema.specs.Presentation.{signature_of};
ghost use Rattle.rw_terms.specs.declared.code.OpCode as code;
ghost use Rattle.rw_rule.specs.RuleFaults.{IsRuleOver};
ghost use Rattle.rw_rule.specs.declared.refusal.Refusal.TheVariants as refusals;
ghost use Rattle.rw_redex.specs.Obstructions.{too_large};
ghost use Rattle.rw_redex.specs.RuleParts.{IsSpanOver};
ghost use Rattle.rw_glue.specs.Given.{AreValues, CanGlue};
ghost use Rattle.rw_glue.specs.Glues.{Glues};
ghost use Rattle.rw_glue.specs.inner.Glued.{IsSite};
ghost use Rattle.rw_glue.specs.inner.Refused.{object_told};

use crate::glued::glued;
use crate::sides::sides_of;
use crate::{GlueEnd, SetValues};
use rw_columns::Change;
use rw_delta::{Context, Probe};
use rw_pattern::Tuple;
use rw_redex::first_too_large;
use rw_rule::{Refusal, Rule};
use rw_schema::{ObjectId, Schema};
use rw_steps::Steps;
use std::alloc::Global;
use std::sync::ledger::Ledger;

/// The change of the host that leaves the double pushout: the context and the right side, glued along what is kept. Parts of
/// the context that are merged keep the least of their names, new parts take next names, and a cell has the atom that is
/// demanded of it. Only names that are under kept parts can be merged, so classes are made of these and of the parts of the
/// right side alone, and rows are changed at the preimages of the names that are merged away; nothing else of the host is
/// read. It is an error if the next name of an object would pass 16,777,216, or if two atoms are demanded of one cell. It
/// takes memory for the lists.
///
/// Lack and Sobociński, "Adhesive and quasiadhesive categories" (2005).
pub fn glue<P: Probe, L: Ledger>(
    alloc: Global,
    schema: &Schema,
    probe: &P,
    rule: &Rule,
    tuple: &Tuple,
    context: &Context,
    values: &SetValues,
    steps: &mut Steps<L>,
) -> Result<Change, GlueEnd>
    requires probe { P.signature probe.now ≡ signature_of schema.now }
    requires given { CanGlue (signature_of schema.now) rule.now tuple.now (P.instance probe.now) context.now }
    requires values { length values.now ≡ length rule.now.sets }
    ensures { (codes : List code.OpCode) → IsRuleOver (signature_of schema.now) (length codes) rule.now
        → AreValues codes rule.now tuple.now (P.instance probe.now) values.now
        → Glues (signature_of schema.now) codes rule.now tuple.now (P.instance probe.now) context.now.next result }
{
    if let Some(object) = object_too_large(schema, rule, context.next.as_slice()) {
        return Err(GlueEnd::TooLarge { object });
    }
    known(schema, probe, rule, tuple, context);
    let sides = sides_of(alloc, schema, probe, rule, tuple, context, values, steps)?;
    glued(alloc, schema, probe, &sides, steps)
}

/// The first object whose next name would pass the greatest one.
fn object_too_large(schema: &Schema, rule: &Rule, next: &[u32]) -> Option<ObjectId>
    requires rule { IsSpanOver (signature_of schema.now) rule.now }
    requires next { length next.now ≡ length schema.now.objects }
    ensures { option_map (λ object. refusals.TooLarge object) result ≡ too_large rule.now next.now }
{
    object_in(&first_too_large(schema, rule, next))
}

/// The object of which a refusal tells that its next name would be too large.
fn object_in(refusal: &Option<Refusal>) -> Option<ObjectId>
    ensures { result ≡ option_and_then object_told refusal.now }
{
    object_of(refusal.as_ref()?)
}

/// The object of which the refusal tells so.
fn object_of(refusal: &Refusal) -> Option<ObjectId>
    ensures { result ≡ object_told refusal.now }
{
    match refusal {
        Refusal::Identification { .. } => None,
        Refusal::Dangling { .. } => None,
        Refusal::NoValue { .. } => None,
        Refusal::TooLarge { object } => Some(*object),
        Refusal::Clash { .. } => None,
    }
}

/// What is known of what is to be glued. It does nothing at run time.
fn known<P: Probe>(schema: &Schema, probe: &P, rule: &Rule, tuple: &Tuple, context: &Context)
    requires probe { P.signature probe.now ≡ signature_of schema.now }
    requires given { CanGlue (signature_of schema.now) rule.now tuple.now (P.instance probe.now) context.now }
    requires room { too_large rule.now context.now.next ≡ None }
    ensures { IsSite (signature_of schema.now) rule.now tuple.now (P.instance probe.now) context.now }
{
    probe.known();
    let _arrows = schema.arrow_list();
    let _rule = rule.kind();
    let _tuple = tuple.names();
    let _next = context.next.len();
}
