//! The largest fitting pair.

ghost use Rattle.std.specs.Prelude.{◌≡◌, ℕ, Contains, IfOk, Option};
ghost use Rattle.rw_schema.specs.declared.atom.Atom.{Atom};
ghost use Rattle.rw_schema.specs.Presentation.{signature_of};
ghost use Rattle.rw_schema.specs.Signature.{Signature};
ghost use Rattle.rw_spec.specs.Instance.{Instance};
ghost use Rattle.rw_partial.specs.SinglePushout.{IsLargestPair};
ghost use Rattle.rw_pattern.specs.Matches.{matches};
ghost use Rattle.rw_rule.specs.RuleFaults.{IsRuleOver};
ghost use Rattle.rw_rule.specs.declared.kind.RuleKind.TheVariants.{Spo};
ghost use Rattle.rw_dpo.specs.inner.Site.{IsSite};
ghost use Rattle.rw_spo.specs.PairContexts.{IsOnlyPair, IsPairContext, applied, host_elements, right_elements, valued};
ghost use Rattle.rw_spo.specs.inner.Removal.{AllMustGo};
ghost use Rattle.rw_spo.specs.inner.Staying.{AreStaying};

use crate::gone::{blank_lists, removed_lists};
use crate::removal::removed_elements;
use crate::removed::Removed;
use crate::staying::{kept_lists, right_cell_lists, right_lists};
use rw_delta::{Context, Probe};
use rw_dpo::{empty_context, empty_lists, known};
use rw_pattern::Tuple;
use rw_rule::Rule;
use rw_schema::{OutOfMemory, Schema};
use rw_steps::Steps;
use std::alloc::Global;
use std::sync::ledger::Ledger;

/// The context of a single-pushout rule at a match: the largest sub-instances of the host and of the right side for which
/// what the match takes to the one is what the rule takes to the other, where a cell that the rule sets is on the right
/// side alone. Parts and cells, blank or not, are both counted as elements. So a part that is both kept and deleted goes,
/// and with a part each one whose arrows lead to it. It is the same whatever values the right side is given.
///
/// What goes is found from the match and from what goes already: of the host no more is read. Of each object the next name
/// is given, and it stays. It takes memory for what goes and for the lists.
///
/// Löwe, "Algebraic approach to single-pushout graph transformation" (1993), defines steps so.
pub fn largest_pair<P: Probe, L: Ledger>(
    alloc: Global,
    schema: &Schema,
    probe: &P,
    rule: &Rule,
    tuple: &Tuple,
    next: &[u32],
    steps: &mut Steps<L>,
) -> Result<Context, OutOfMemory>
    requires probe { P.signature probe.now ≡ signature_of schema.now }
    requires rule { (ops : ℕ) × IsRuleOver (signature_of schema.now) ops rule.now }
    requires kind { rule.now.kind ≡ Spo }
    requires tuple { Contains (matches (signature_of schema.now) rule.now.goal.left rule.now.goal.monic (P.instance probe.now)) tuple.now }
    ensures lists { IfOk result (λ context. IsPairContext (signature_of schema.now) rule.now tuple.now (P.instance probe.now)
        (host_elements (signature_of schema.now) context) (right_elements context) next.now context) }
    ensures largest { IfOk result (λ context. IsLargestPair (signature_of schema.now) (applied rule.now tuple.now (P.instance probe.now))
        (host_elements (signature_of schema.now) context) (right_elements context)) }
    ensures valued { IfOk result (λ context. (values : ℕ → ℕ → Option Atom) → IsLargestPair (signature_of schema.now) (valued rule.now tuple.now (P.instance probe.now) values)
        (host_elements (signature_of schema.now) context) (right_elements context)) }
    ensures only { IfOk result (λ context. IsOnlyPair (signature_of schema.now) (applied rule.now tuple.now (P.instance probe.now))
        (host_elements (signature_of schema.now) context) (right_elements context)) }
{
    known(schema, probe, rule, tuple);
    let removed = removed_elements(alloc, schema, probe, rule, tuple, steps)?;
    let context = context_lists(alloc, schema, probe, rule, tuple, &removed, next)?;
    Ok(context)
}

/// The lists of what stays.
fn context_lists<P: Probe>(
    alloc: Global,
    schema: &Schema,
    probe: &P,
    rule: &Rule,
    tuple: &Tuple,
    removed: &Removed,
    next: &[u32],
) -> Result<Context, OutOfMemory>
    requires probe { P.signature probe.now ≡ signature_of schema.now }
    requires site { IsSite (P.signature probe.now) rule.now tuple.now (P.instance probe.now) }
    requires sound { AllMustGo (P.signature probe.now) (applied rule.now tuple.now (P.instance probe.now)) removed.now }
    ensures { IfOk result (AreStaying (signature_of schema.now) rule.now tuple.now (P.instance probe.now) removed.now next.now) }
{
    let mut context = empty_context(alloc);
    let objects = schema.objects();
    context.of_keep = kept_lists(alloc, removed, rule, tuple, objects)?;
    context.removed = removed_lists(alloc, probe, rule, tuple, removed, objects)?;
    context.blank = blank_lists(alloc, schema, probe, rule, tuple, removed)?;
    context.right = right_lists(alloc, removed, rule.right(), objects)?;
    context.right_cells = right_cell_lists(alloc, schema, removed, rule.right())?;
    context.rows = empty_lists(alloc, schema.arrows())?;
    context.next = Vec::from_slice(alloc, next)?;
    Ok(context)
}
