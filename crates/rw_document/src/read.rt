//! Documents from their bytes.

ghost use Rattle.std.specs.Prelude.{◌≡◌, ◌<◌, ◌^◌, All, IfOk, length, map, option_map, true};
ghost use Rattle.serde_json.specs.View.{view};
ghost use Rattle.rw_schema.specs.Presentation.{signature_of};
ghost use Rattle.rw_spec.specs.Tabled.{IsOver};
ghost use Rattle.rw_terms.specs.OpEntries.{entries};
ghost use Rattle.rw_rule.specs.RuleFaults.{IsRuleOver};
ghost use Rattle.rw_rule.specs.RuleParts.{rule_of_parts};
ghost use Rattle.rw_doc.specs.Gives.{Gives};
ghost use Rattle.rw_docrule.specs.Built.{is_built_rule};
ghost use Rattle.rw_docrule.specs.Known.{IsRuleUnlessCyclic};
ghost use Rattle.rw_docrule.specs.Reads.{rule_read};
ghost use Rattle.rw_document.specs.Documents as spec;
ghost use Rattle.rw_document.specs.Models.{IsSound, document_lists};
ghost use Rattle.rw_document.specs.Views.{AreOthersOver, others_read};

use crate::Document;
use crate::ends::{Ends, read_ends};
use crate::goals::read_goals;
use crate::values::{allows_blanks, read_json, schema_in};
use rw_doc::{ReadDocEnd, empty_instance, read_instance, read_schema};
use rw_docrule::{RuleRead, build_rules, not_built};
use rw_rule::{Rule, Watch};
use rw_schema::Schema;
use rw_table::Table;
use rw_terms::OpTable;
use serde_json::Value;
use std::alloc::Global;

/// What a document has besides its schema and its instance.
#[derive(Drop)]
struct Others {
    rules: Vec<Rule>,
    watches: Vec<Watch>,
    ends: Ends,
}

/// The instance that is written, or one without parts. It is said whether a cell may be blank.
fn instance_or_none(
    alloc: Global,
    schema: &Schema,
    blanks: bool,
    value: Option<&Value>,
) -> Result<Table, ReadDocEnd>
    ensures gives { Gives (λ table. table) result (spec.instance_or_none (signature_of schema.now) blanks (option_map (λ value. view value.now) value.entry)) }
    ensures over { IfOk result (IsOver schema.now) }
{
    match value {
        Some(value) => read_instance(alloc, value, schema, blanks),
        None => Ok(empty_instance(alloc, schema)?),
    }
}

/// Whether a section is there that is not read yet.
fn has_more(value: &Value) -> bool
    ensures { result ≡ spec.has_more (view value.now) }
{
    value.get("schedule").is_some()
}

/// The rules that are read, where all that the document has is built so far.
fn build_all(
    alloc: Global,
    schema: &Schema,
    ops: &OpTable,
    value: &Value,
    rules: Vec<RuleRead>,
) -> Result<Vec<Rule>, ReadDocEnd>
    requires { All (λ read. IsRuleUnlessCyclic (signature_of schema.now) (length (entries ops.now)) (rule_of_parts read.parts)) rules.items }
    ensures gives { Gives (λ rules. rules.items) result (spec.build_all (view value.now) (map rule_read rules.items)) }
    ensures over { IfOk result (λ rules. All (IsRuleOver (signature_of schema.now) (length (entries ops.now))) rules.items) }
    ensures built { IfOk result (λ rules. All (λ rule. is_built_rule rule ≡ true) rules.items) }
    ensures long { IfOk result (λ found. length found.items ≡ length rules.items) }
{
    if has_more(value) {
        return Err(not_built());
    }
    build_rules(alloc, schema, ops, rules)
}

/// The rules, watches, span and cospan that are written.
fn read_others(
    alloc: Global,
    schema: &Schema,
    ops: &OpTable,
    value: &Value,
) -> Result<Others, ReadDocEnd>
    requires { length (entries ops.now) < 2 ^ 32 }
    ensures gives { Gives others_read result (spec.read_others schema.now (entries ops.now) (view value.now)) }
    ensures over { IfOk result (λ others. AreOthersOver (signature_of schema.now) (length (entries ops.now)) (others_read others)) }
{
    let goals = read_goals(alloc, schema, ops, value)?;
    let ends = read_ends(alloc, schema, value)?;
    let rules = build_all(alloc, schema, ops, value, goals.rules)?;
    Ok(Others {
        rules,
        watches: goals.watches,
        ends,
    })
}

/// The document over this schema.
fn read_over(
    alloc: Global,
    schema: Schema,
    ops: &OpTable,
    value: &Value,
) -> Result<Document, ReadDocEnd>
    requires { length (entries ops.now) < 2 ^ 32 }
    ensures gives { Gives document_lists result (spec.read_over schema (entries ops.now) (view value.now)) }
    ensures sound { IfOk result (λ document. IsSound (length (entries ops.now)) (document_lists document)) }
{
    let blanks = allows_blanks(value);
    let table = instance_or_none(alloc, &schema, blanks, value.get("instance"))?;
    let others = read_others(alloc, &schema, ops, value)?;
    Ok(Document {
        schema,
        table,
        rules: others.rules,
        watches: others.watches,
        span: others.ends.span,
        cospan: others.ends.cospan,
    })
}

/// The document that a JSON value is.
fn read_value(alloc: Global, ops: &OpTable, value: &Value) -> Result<Document, ReadDocEnd>
    requires { length (entries ops.now) < 2 ^ 32 }
    ensures gives { Gives document_lists result (spec.read_value (entries ops.now) (view value.now)) }
    ensures sound { IfOk result (λ document. IsSound (length (entries ops.now)) (document_lists document)) }
{
    let written = schema_in(value)?;
    let schema = read_schema(alloc, written)?;
    read_over(alloc, schema, ops, value)
}

/// The document that the bytes are, or its first fault. The sections are read in the order schema, instance, rules,
/// watches, span, cospan. The rules' terms have operations of the table, by their names in the document and by their
/// numbers in the rules.
///
/// docs/FORMAT.md lists the faults. What is not built yet is code 16, where the document has no other fault: a section
/// that is not read, or a rule with conditions or of another kind than double pushout. Want of memory may end a reading at
/// any bytes. The time and the memory are linear in the bytes and the counts of parts, the time up to a logarithm.
pub fn read_document(alloc: Global, bytes: &[u8], ops: &OpTable) -> Result<Document, ReadDocEnd>
    requires { length (entries ops.now) < 2 ^ 32 }
    ensures gives { Gives document_lists result (spec.read_document (entries ops.now) bytes.now) }
    ensures sound { IfOk result (λ document. IsSound (length (entries ops.now)) (document_lists document)) }
{
    let value = read_json(alloc, bytes)?;
    read_value(alloc, ops, &value)
}
