//! Which match of a rule is applied.

ghost use Rattle.std.specs.Prelude.{◌≡◌, ◌≤◌, Contains, IfOk, length};
ghost use Rattle.std.specs.List.{All};
ghost use Rattle.rw_schema.specs.Presentation.{signature_of};
ghost use Rattle.rw_spec.specs.Instance.{instance_of};
ghost use Rattle.rw_columns.specs.Kept.{lists_of_columns};
ghost use Rattle.rw_rule.specs.RuleFaults.{IsRuleOver};
ghost use Rattle.rw_rule.specs.declared.kind.RuleKind.TheVariants.{Dpo};
ghost use Rattle.rw_terms.specs.OpEntries.{entries};
ghost use Rattle.rw_terms.specs.OpTables.{codes_of};
ghost use Rattle.rw_lists.specs.Fresh.{fresh_list};
ghost use Rattle.rw_print.specs.Lines.{IsKnown};
ghost use Rattle.rw_app.specs.Picked.{IsPick};
ghost use Rattle.rw_app.specs.Verdicts.{IsVerdict};

use crate::listed::Listed;
use crate::verdict::{Verdict, try_match};
use rw_columns::{Change, Columns};
use rw_pattern::Tuple;
use rw_rule::{Refusal, Rule};
use rw_schema::{ObjectId, OutOfMemory, Schema};
use rw_steps::Steps;
use rw_terms::OpTable;
use std::alloc::Global;
use std::sync::ledger::Ledger;

/// A match that is applied, and the change that leaves the step.
#[derive(Drop)]
pub(crate) struct Applied {
    pub(crate) tuple: Tuple,
    pub(crate) change: Change,
}

/// The matches that were tried and refused, each with its obstruction, and what is applied.
#[derive(Drop)]
pub(crate) struct Pick {
    pub(crate) refused: Vec<(Tuple, Refusal)>,
    pub(crate) applied: Option<Applied>,
}

/// Tries the matches of the rule in their order, and picks the first without an obstruction. The columns stay as they are.
pub(crate) fn pick_first<L: Ledger>(
    alloc: Global,
    schema: &Schema,
    rule: &Rule,
    columns: &Columns,
    found: &[Tuple],
    ops: &OpTable,
    steps: &mut Steps<L>,
) -> Result<Pick, OutOfMemory>
    requires columns { columns.now.signature ≡ signature_of schema.now }
    requires rule { IsRuleOver (signature_of schema.now) (length (entries ops.now)) rule.now }
    requires kind { rule.now.kind ≡ Dpo }
    requires found { found.now ≡ fresh_list (signature_of schema.now) (instance_of (signature_of schema.now) (lists_of_columns columns.now)) rule.now.goal }
    ensures pick { IfOk result (IsPick (signature_of schema.now) (codes_of (entries ops.now)) rule.now (lists_of_columns columns.now)) }
    ensures known { IfOk result (λ pick. All (λ entry. IsKnown schema.now entry.1) pick.refused.items) }
{
    let next = next_names(alloc, columns, schema.objects())?;
    pick_among(
        alloc,
        schema,
        rule,
        columns,
        next.as_slice(),
        found,
        ops,
        steps,
    )
}

/// Tries the matches of the rule in their order, where these are the next names.
fn pick_among<L: Ledger>(
    alloc: Global,
    schema: &Schema,
    rule: &Rule,
    columns: &Columns,
    next: &[u32],
    found: &[Tuple],
    ops: &OpTable,
    steps: &mut Steps<L>,
) -> Result<Pick, OutOfMemory>
    requires columns { columns.now.signature ≡ signature_of schema.now }
    requires rule { IsRuleOver (signature_of schema.now) (length (entries ops.now)) rule.now }
    requires kind { rule.now.kind ≡ Dpo }
    requires next { next.now ≡ (lists_of_columns columns.now).next }
    requires found { found.now ≡ fresh_list (signature_of schema.now) (instance_of (signature_of schema.now) (lists_of_columns columns.now)) rule.now.goal }
    ensures pick { IfOk result (IsPick (signature_of schema.now) (codes_of (entries ops.now)) rule.now (lists_of_columns columns.now)) }
    ensures known { IfOk result (λ pick. All (λ entry. IsKnown schema.now entry.1) pick.refused.items) }
{
    // A refusal names an object by the place of its next name; the schema presents a category.
    let _arrows = schema.arrow_list();
    let mut refused = Vec::new(alloc);
    for tuple in found {
        match try_tuple(alloc, schema, rule, columns, next, tuple, ops, steps)? {
            Verdict::Refused(refusal) => refused.push((tuple.copy(alloc)?, refusal))?,
            Verdict::Ready(change) => {
                let tuple = tuple.copy(alloc)?;
                let applied = Some(Applied { tuple, change });
                return Ok(Pick { refused, applied });
            }
        }
    }
    Ok(Pick {
        refused,
        applied: None,
    })
}

/// The verdict on a match in the columns, where these are the next names.
fn try_tuple<L: Ledger>(
    alloc: Global,
    schema: &Schema,
    rule: &Rule,
    columns: &Columns,
    next: &[u32],
    tuple: &Tuple,
    ops: &OpTable,
    steps: &mut Steps<L>,
) -> Result<Verdict, OutOfMemory>
    requires columns { columns.now.signature ≡ signature_of schema.now }
    requires rule { IsRuleOver (signature_of schema.now) (length (entries ops.now)) rule.now }
    requires kind { rule.now.kind ≡ Dpo }
    requires next { next.now ≡ (lists_of_columns columns.now).next }
    requires tuple { Contains (fresh_list (signature_of schema.now) (instance_of (signature_of schema.now) (lists_of_columns columns.now)) rule.now.goal) tuple.now }
    ensures { IfOk result (IsVerdict (signature_of schema.now) (codes_of (entries ops.now)) rule.now (instance_of (signature_of schema.now) (lists_of_columns columns.now)) (lists_of_columns columns.now).next tuple.now) }
{
    let host = Listed::of(schema, columns);
    try_match(alloc, schema, rule, &host, next, tuple, ops, steps)
}

/// Of each object the next name.
fn next_names(alloc: Global, columns: &Columns, objects: usize) -> Result<Vec<u32>, OutOfMemory>
    requires few { objects ≤ 64 }
    requires objects { objects ≡ columns.now.signature.objects }
    ensures { IfOk result (λ next. next.items ≡ (lists_of_columns columns.now).next) }
{
    let mut next = Vec::new(alloc);
    for object in 0..objects {
        next.push(columns.next_name(ObjectId(object as u16)))?;
    }
    Ok(next)
}
