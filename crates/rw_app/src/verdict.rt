//! The verdict on a match: its step, or what obstructs it.

ghost use Rattle.std.specs.Prelude.{◌≡◌, ◌<◌, ℕ, All, Contains, IfOk, None, length, slice_index, true};
ghost use Rattle.rw_schema.specs.First.{or_else};
ghost use Rattle.rw_schema.specs.Presentation.{signature_of};
ghost use Rattle.rw_spec.specs.Instance.{Has};
ghost use Rattle.rw_pattern.specs.Matches.{matches};
ghost use Rattle.rw_terms.specs.OpEntries.{entries};
ghost use Rattle.rw_terms.specs.OpTables.{codes_of};
ghost use Rattle.rw_rule.specs.RuleFaults.{IsRuleOver};
ghost use Rattle.rw_rule.specs.declared.kind.RuleKind.TheVariants.{Dpo};
ghost use Rattle.rw_terms.specs.Terms.{is_evaluable};
ghost use Rattle.rw_redex.specs.Gluing.{identification};
ghost use Rattle.rw_redex.specs.Obstructions.{dangling};
ghost use Rattle.rw_redex.specs.SetValues.{no_value, valuation as valuation_at};
ghost use Rattle.rw_glue.specs.Given.{AreValues, CanGlue};
ghost use Rattle.rw_app.specs.Verdicts.{IsVerdict};

use rw_columns::Change;
use rw_delta::{Context, Probe};
use rw_dpo::{complement, gluing};
use rw_glue::{GlueEnd, NoValueEnd, SetValues, glue, valuation_of, values};
use rw_pattern::Tuple;
use rw_rule::{Refusal, Rule};
use rw_schema::{OutOfMemory, Schema};
use rw_steps::Steps;
use rw_terms::{OpTable, Valuation};
use std::alloc::Global;
use std::sync::ledger::Ledger;

/// What becomes of a match.
#[derive(Drop)]
pub(crate) enum Verdict {
    /// The change that leaves the step.
    Ready(Change),
    /// What obstructs the match first.
    Refused(Refusal),
}

/// The step of a double-pushout rule at a match, as a change of the host, or what obstructs it first. The host stays as it
/// is. Of each object its next name is given. The operations of the rule's terms are those of the table, by their numbers.
/// The work follows the match and the change, and not the size of the host.
///
/// Ehrig, Pfender and Schneider, "Graph-grammars: an algebraic approach" (1973), define the step by two pushouts.
pub(crate) fn try_match<P: Probe, L: Ledger>(
    alloc: Global,
    schema: &Schema,
    rule: &Rule,
    probe: &P,
    next: &[u32],
    tuple: &Tuple,
    ops: &OpTable,
    steps: &mut Steps<L>,
) -> Result<Verdict, OutOfMemory>
    requires probe { P.signature probe.now ≡ signature_of schema.now }
    requires rule { IsRuleOver (signature_of schema.now) (length (entries ops.now)) rule.now }
    requires kind { rule.now.kind ≡ Dpo }
    requires counted { length next.now ≡ length schema.now.objects }
    requires below { (object x : ℕ) → object < length schema.now.objects → Has (P.instance probe.now) object x → x < slice_index next.now object }
    requires tuple { Contains (matches (signature_of schema.now) rule.now.goal.left rule.now.goal.monic (P.instance probe.now)) tuple.now }
    ensures { IfOk result (IsVerdict (signature_of schema.now) (codes_of (entries ops.now)) rule.now (P.instance probe.now) next.now tuple.now) }
{
    // What is read is an instance of the category that the schema presents.
    probe.known();
    let _arrows = schema.arrow_list();
    match gluing(schema, probe, rule, tuple, steps) {
        Some(refusal) => Ok(Verdict::Refused(refusal)),
        None => try_complement(alloc, schema, rule, probe, next, tuple, ops, steps),
    }
}

/// The verdict where the gluing condition holds.
fn try_complement<P: Probe, L: Ledger>(
    alloc: Global,
    schema: &Schema,
    rule: &Rule,
    probe: &P,
    next: &[u32],
    tuple: &Tuple,
    ops: &OpTable,
    steps: &mut Steps<L>,
) -> Result<Verdict, OutOfMemory>
    requires probe { P.signature probe.now ≡ signature_of schema.now }
    requires rule { IsRuleOver (signature_of schema.now) (length (entries ops.now)) rule.now }
    requires kind { rule.now.kind ≡ Dpo }
    requires counted { length next.now ≡ length schema.now.objects }
    requires below { (object x : ℕ) → object < length schema.now.objects → Has (P.instance probe.now) object x → x < slice_index next.now object }
    requires tuple { Contains (matches (signature_of schema.now) rule.now.goal.left rule.now.goal.monic (P.instance probe.now)) tuple.now }
    requires gluing { or_else (identification rule.now tuple.now) (dangling (signature_of schema.now) rule.now tuple.now (P.instance probe.now)) ≡ None }
    ensures { IfOk result (IsVerdict (signature_of schema.now) (codes_of (entries ops.now)) rule.now (P.instance probe.now) next.now tuple.now) }
{
    // What is read is an instance of the category that the schema presents.
    probe.known();
    let _arrows = schema.arrow_list();
    let context = complement(alloc, schema, probe, rule, tuple, next, steps)?;
    let valuation = valuation_of(alloc, rule, probe, tuple, steps)?;
    try_context(
        alloc, schema, rule, probe, tuple, &context, &valuation, ops, steps,
    )
}

/// The verdict where the context is this one and the variables have these values.
fn try_context<P: Probe, L: Ledger>(
    alloc: Global,
    schema: &Schema,
    rule: &Rule,
    probe: &P,
    tuple: &Tuple,
    context: &Context,
    valuation: &Valuation,
    ops: &OpTable,
    steps: &mut Steps<L>,
) -> Result<Verdict, OutOfMemory>
    requires probe { P.signature probe.now ≡ signature_of schema.now }
    requires rule { IsRuleOver (signature_of schema.now) (length (entries ops.now)) rule.now }
    requires can { CanGlue (signature_of schema.now) rule.now tuple.now (P.instance probe.now) context.now }
    requires evaluable { All (λ set. is_evaluable (codes_of (entries ops.now)) valuation.now set.term ≡ true) rule.now.sets }
    requires valuation { valuation.now ≡ valuation_at rule.now tuple.now (P.instance probe.now) }
    ensures { IfOk result (IsVerdict (signature_of schema.now) (codes_of (entries ops.now)) rule.now (P.instance probe.now) context.now.next tuple.now) }
{
    match values(alloc, schema, rule, valuation, ops) {
        Ok(values) => try_values(
            alloc, schema, rule, probe, tuple, context, &values, ops, steps,
        ),
        Err(NoValueEnd::NoValue { right_part, attr }) => {
            Ok(Verdict::Refused(Refusal::NoValue { right_part, attr }))
        }
        Err(NoValueEnd::OutOfMemory) => Err(OutOfMemory),
    }
}

/// The verdict where the context is this one and the sets have these values.
fn try_values<P: Probe, L: Ledger>(
    alloc: Global,
    schema: &Schema,
    rule: &Rule,
    probe: &P,
    tuple: &Tuple,
    context: &Context,
    values: &SetValues,
    _ops: &OpTable,
    steps: &mut Steps<L>,
) -> Result<Verdict, OutOfMemory>
    requires probe { P.signature probe.now ≡ signature_of schema.now }
    requires rule { IsRuleOver (signature_of schema.now) (length (entries _ops.now)) rule.now }
    requires can { CanGlue (signature_of schema.now) rule.now tuple.now (P.instance probe.now) context.now }
    requires values { AreValues (codes_of (entries _ops.now)) rule.now tuple.now (P.instance probe.now) values.now }
    requires valued { no_value (signature_of schema.now) (codes_of (entries _ops.now)) rule.now tuple.now (P.instance probe.now) ≡ None }
    ensures { IfOk result (IsVerdict (signature_of schema.now) (codes_of (entries _ops.now)) rule.now (P.instance probe.now) context.now.next tuple.now) }
{
    // The schema presents a category.
    let _arrows = schema.arrow_list();
    match glue(alloc, schema, probe, rule, tuple, context, values, steps) {
        Ok(change) => Ok(Verdict::Ready(change)),
        Err(GlueEnd::TooLarge { object }) => Ok(Verdict::Refused(Refusal::TooLarge { object })),
        Err(
            GlueEnd::Clash {
                object,
                name,
                attr,
                first,
                second,
            },
        ) => Ok(Verdict::Refused(Refusal::Clash {
            object,
            name,
            attr,
            first,
            second,
        })),
        Err(GlueEnd::OutOfMemory) => Err(OutOfMemory),
    }
}
