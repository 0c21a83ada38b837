//! The rules of a document as they are built.

ghost use Rattle.std.specs.Prelude.{◌≡◌, All, IfOk, true, Ok, length, map};
ghost use Rattle.rw_schema.specs.Presentation.{signature_of};
ghost use Rattle.rw_terms.specs.OpEntries.{entries};
ghost use Rattle.rw_rule.specs.RuleFaults.{IsRuleOver};
ghost use Rattle.rw_rule.specs.RuleParts.{rule_of_parts};
ghost use Rattle.rw_doc.specs.Chain.{checked};
ghost use Rattle.rw_doc.specs.Gives.{Gives};
ghost use Rattle.rw_doc.specs.declared.end.ReadDocEnd.TheVariants.{Refused};
ghost use Rattle.rw_docrule.specs.Built as spec;
ghost use Rattle.rw_docrule.specs.Known.{IsRuleUnlessCyclic};
ghost use Rattle.rw_docrule.specs.Reads.{rule_read};

use crate::RuleRead;
use rw_doc::{ReadDocEnd, refused_of};
use rw_rule::{Rule, RuleKind};
use rw_schema::{Schema, Section};
use rw_terms::OpTable;
use std::alloc::Global;

/// The code of what is not built yet.
const NOT_BUILT: u8 = 16;

/// The end of a reading at what is not built yet.
pub fn not_built() -> ReadDocEnd
    ensures { result ≡ Refused spec.not_built }
{
    refused_of(NOT_BUILT, Section::Whole)
}

/// Whether steps of the rule are built so far.
fn is_built(rule: &Rule) -> bool
    ensures { result ≡ spec.is_built_rule rule.now }
{
    matches!(rule.kind(), RuleKind::Dpo) && rule.goal().conditions.is_empty()
}

/// The rule itself, where its steps are built so far.
fn built_rule(rule: Rule) -> Result<Rule, ReadDocEnd>
    ensures gives { Gives (λ rule. rule) result (checked spec.not_built (spec.is_built_rule rule) (Ok rule)) }
    ensures same { IfOk result (λ found. found ≡ rule) }
    ensures built { IfOk result (λ found. spec.is_built_rule found ≡ true) }
{
    if is_built(&rule) {
        Ok(rule)
    } else {
        Err(not_built())
    }
}

/// The rule that is read, where its steps are built so far.
fn build_rule(
    alloc: Global,
    schema: &Schema,
    ops: &OpTable,
    read: RuleRead,
) -> Result<Rule, ReadDocEnd>
    requires { IsRuleUnlessCyclic (signature_of schema.now) (length (entries ops.now)) (rule_of_parts read.parts) }
    ensures gives { Gives (λ rule. rule) result (checked spec.not_built (spec.is_built (rule_read read)) (Ok (rule_of_parts read.parts))) }
    ensures over { IfOk result (IsRuleOver (signature_of schema.now) (length (entries ops.now))) }
    ensures built { IfOk result (λ rule. spec.is_built_rule rule ≡ true) }
{
    if read.has_conditions {
        return Err(not_built());
    }
    match Rule::of_checked(alloc, schema, read.parts, ops)? {
        Some(rule) => built_rule(rule),
        None => Err(not_built()),
    }
}

/// The rules that are read, where the steps of each are built so far.
pub fn build_rules(
    alloc: Global,
    schema: &Schema,
    ops: &OpTable,
    reads: Vec<RuleRead>,
) -> Result<Vec<Rule>, ReadDocEnd>
    requires { All (λ read. IsRuleUnlessCyclic (signature_of schema.now) (length (entries ops.now)) (rule_of_parts read.parts)) reads.items }
    ensures gives { Gives (λ rules. rules.items) result (spec.build_rules (map rule_read reads.items)) }
    ensures over { IfOk result (λ rules. All (IsRuleOver (signature_of schema.now) (length (entries ops.now))) rules.items) }
    ensures built { IfOk result (λ rules. All (λ rule. spec.is_built_rule rule ≡ true) rules.items) }
    ensures long { IfOk result (λ rules. length rules.items ≡ length reads.items) }
{
    let mut rules = Vec::new(alloc);
    for read in reads {
        let rule = build_rule(alloc, schema, ops, read)?;
        rules.push(rule)?;
    }
    Ok(rules)
}
