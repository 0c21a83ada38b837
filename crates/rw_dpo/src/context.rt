//! The pushout complement.

ghost use Rattle.std.specs.Prelude.{◌≡◌, ℕ, [], Contains, IfOk, None};
ghost use Rattle.rw_schema.specs.First.{or_else};
ghost use Rattle.rw_schema.specs.Presentation.{signature_of};
ghost use Rattle.rw_pattern.specs.Matches.{matches};
ghost use Rattle.rw_complement.specs.Complement.{IsContext};
ghost use Rattle.rw_complement.specs.Context.{context_map};
ghost use Rattle.rw_complement.specs.Redex.{CanBeGlued};
ghost use Rattle.rw_delta.specs.ContextLists.{instance_of_context};
ghost use Rattle.rw_redex.specs.Gluing.{identification};
ghost use Rattle.rw_redex.specs.Instantiated.{redex_of};
ghost use Rattle.rw_redex.specs.Obstructions.{dangling};
ghost use Rattle.rw_rule.specs.RuleFaults.{IsRuleOver};
ghost use Rattle.rw_rule.specs.declared.kind.RuleKind.TheVariants.{Dpo};
ghost use Rattle.rw_dpo.specs.Complements.{IsOnlyContext};
ghost use Rattle.rw_dpo.specs.Contexts.{IsContextOf};
ghost use Rattle.rw_dpo.specs.inner.Site.{IsSite};

use crate::blank::blank_lists;
use crate::kept::kept_lists;
use crate::removed::removed_lists;
use crate::site::known;
use crate::whole::{cells_stay, empty_lists, stay_lists};
use rw_delta::{Context, Probe};
use rw_pattern::Tuple;
use rw_rule::Rule;
use rw_schema::{OutOfMemory, Schema};
use rw_steps::Steps;
use std::alloc::Global;
use std::sync::ledger::Ledger;

/// The context of a double-pushout rule at a match where the gluing condition holds: the host without the parts that are
/// matched and not kept, where a cell is blank if it is set at every kept part over it. It is the least pushout complement
/// under names of the host. The lists are made from the rule and the match, and nothing of the host is read but cells that
/// are set. Of each object the next name is given, and it stays. It takes memory for the lists.
///
/// Lack and Sobociński, "Adhesive and quasiadhesive categories" (2005), show where complements are unique.
pub fn complement<P: Probe, L: Ledger>(
    alloc: Global,
    schema: &Schema,
    probe: &P,
    rule: &Rule,
    tuple: &Tuple,
    next: &[u32],
    steps: &mut Steps<L>,
) -> Result<Context, OutOfMemory>
    requires probe { P.signature probe.now ≡ signature_of schema.now }
    requires rule { (ops : ℕ) × IsRuleOver (signature_of schema.now) ops rule.now }
    requires kind { rule.now.kind ≡ Dpo }
    requires tuple { Contains (matches (signature_of schema.now) rule.now.goal.left rule.now.goal.monic (P.instance probe.now)) tuple.now }
    requires gluing { or_else (identification rule.now tuple.now) (dangling (signature_of schema.now) rule.now tuple.now (P.instance probe.now)) ≡ None }
    ensures lists { IfOk result (IsContextOf (signature_of schema.now) rule.now tuple.now (P.instance probe.now) next.now) }
    ensures context { IfOk result (λ context. IsContext (signature_of schema.now) (redex_of rule.now tuple.now (P.instance probe.now))
        (instance_of_context (signature_of schema.now) (P.instance probe.now) context) (context_map (redex_of rule.now tuple.now (P.instance probe.now)))) }
    ensures only { IfOk result (λ context. IsOnlyContext (signature_of schema.now) (redex_of rule.now tuple.now (P.instance probe.now))
        (instance_of_context (signature_of schema.now) (P.instance probe.now) context) (context_map (redex_of rule.now tuple.now (P.instance probe.now)))) }
{
    known(schema, probe, rule, tuple);
    context_lists(alloc, schema, probe, rule, tuple, next, steps)
}

/// The lists of the context.
fn context_lists<P: Probe, L: Ledger>(
    alloc: Global,
    schema: &Schema,
    probe: &P,
    rule: &Rule,
    tuple: &Tuple,
    next: &[u32],
    steps: &mut Steps<L>,
) -> Result<Context, OutOfMemory>
    requires probe { P.signature probe.now ≡ signature_of schema.now }
    requires site { IsSite (P.signature probe.now) rule.now tuple.now (P.instance probe.now) }
    requires glued { CanBeGlued (P.signature probe.now) (redex_of rule.now tuple.now (P.instance probe.now)) }
    ensures { IfOk result (IsContextOf (signature_of schema.now) rule.now tuple.now (P.instance probe.now) next.now) }
{
    let mut context = empty_context(alloc);
    let objects = schema.objects();
    context.of_keep = kept_lists(alloc, rule, tuple, objects)?;
    context.removed = removed_lists(alloc, probe, rule, tuple, objects)?;
    context.blank = blank_lists(alloc, schema, probe, rule, tuple, steps)?;
    context.right = stay_lists(alloc, rule.right(), objects)?;
    context.right_cells = cells_stay(alloc, schema, rule.right())?;
    context.rows = empty_lists(alloc, schema.arrows())?;
    context.next = Vec::from_slice(alloc, next)?;
    Ok(context)
}

/// A context without lists.
pub fn empty_context(alloc: Global) -> Context
    ensures { result.copies ≡ [] }
{
    Context {
        of_keep: Vec::new(alloc),
        removed: Vec::new(alloc),
        copies: Vec::new(alloc),
        blank: Vec::new(alloc),
        right: Vec::new(alloc),
        right_cells: Vec::new(alloc),
        rows: Vec::new(alloc),
        next: Vec::new(alloc),
    }
}
