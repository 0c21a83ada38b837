//! The rules of a document.

ghost use Rattle.std.specs.Prelude.{◌≡◌, ◌<◌, ◌≤◌, ◌^◌, [], All, IfOk, false, length, map, option_map};
ghost use Rattle.std.specs.List.{list_any};
ghost use Rattle.std.specs.Str.{bytes_eq};
ghost use Rattle.serde_json.specs.View.{view};
ghost use Rattle.rw_schema.specs.Presentation.{signature_of};
ghost use Rattle.rw_terms.specs.OpEntries.{entries};
ghost use Rattle.rw_rule.specs.RuleParts.{rule_of_parts};
ghost use Rattle.rw_doc.specs.Chain.{each_after};
ghost use Rattle.rw_doc.specs.Gives.{Gives};
ghost use Rattle.rw_docrule.specs.Known.{IsRuleUnlessCyclic};
ghost use Rattle.rw_docrule.specs.Reads.{rule_read};
ghost use Rattle.rw_docrule.specs.Rules as spec;

use crate::RuleRead;
use crate::members::rule_members;
use crate::pieces::read_pieces;
use crate::sides::rule_piece;
use rw_doc::{ReadDocEnd, read_list_or_none};
use rw_schema::{NameIndex, Schema, Section};
use rw_terms::OpTable;
use serde_json::Value;
use std::alloc::Global;

/// The greatest number of rules.
const MOST_RULES: usize = 256;

/// The rule at this place, where these names are taken.
fn read_rule(
    alloc: Global,
    schema: &Schema,
    ops: &OpTable,
    taken: &NameIndex,
    place: u32,
    value: &Value,
) -> Result<RuleRead, ReadDocEnd>
    requires { length (entries ops.now) < 2 ^ 32 }
    ensures gives { Gives rule_read result (spec.read_rule_where schema.now (entries ops.now) taken.now place (view value.now)) }
    ensures known { IfOk result (λ read. IsRuleUnlessCyclic (signature_of schema.now) (length (entries ops.now)) (rule_of_parts read.parts)) }
    ensures new { IfOk result (λ read. list_any (bytes_eq read.parts.name) taken.now ≡ false) }
{
    match rule_members(value) {
        Some(members) => read_pieces(alloc, schema, ops, taken, place, &members),
        None => Err(rule_piece(place, 0).refused(2)),
    }
}

/// The rules that the values are. Their names are taken then.
fn rules_of(
    alloc: Global,
    schema: &Schema,
    ops: &OpTable,
    names: &mut NameIndex,
    items: &[Value],
) -> Result<Vec<RuleRead>, ReadDocEnd>
    requires operations { length (entries ops.now) < 2 ^ 32 }
    requires names { names.old ≡ [] }
    requires few { length items.now ≤ 256 }
    ensures gives { Gives (λ rules. map rule_read rules.items) result (each_after (spec.read_rule schema.now (entries ops.now)) [] (map view items.now)) }
    ensures known { IfOk result (λ rules. All (λ read. IsRuleUnlessCyclic (signature_of schema.now) (length (entries ops.now)) (rule_of_parts read.parts)) rules.items) }
    ensures names { IfOk result (λ rules. names.new ≡ spec.names_of_rules (map rule_read rules.items)) }
    ensures few { IfOk result (λ rules. length rules.items ≤ 256) }
{
    let mut rules = Vec::new(alloc);
    for (place, item) in items.iter().enumerate() {
        let rule = read_rule(alloc, schema, ops, names, place as u32, item)?;
        names.push(alloc, rule.parts.name.as_str())?;
        rules.push(rule)?;
    }
    Ok(rules)
}

/// The rules that are written. Their names are taken then, where none are before.
pub fn read_rules(
    alloc: Global,
    schema: &Schema,
    ops: &OpTable,
    names: &mut NameIndex,
    value: Option<&Value>,
) -> Result<Vec<RuleRead>, ReadDocEnd>
    requires operations { length (entries ops.now) < 2 ^ 32 }
    requires names { names.old ≡ [] }
    ensures gives { Gives (λ rules. map rule_read rules.items) result (spec.read_rules schema.now (entries ops.now) (option_map (λ value. view value.now) value.entry)) }
    ensures known { IfOk result (λ rules. All (λ read. IsRuleUnlessCyclic (signature_of schema.now) (length (entries ops.now)) (rule_of_parts read.parts)) rules.items) }
    ensures names { IfOk result (λ rules. names.new ≡ spec.names_of_rules (map rule_read rules.items)) }
    ensures few { IfOk result (λ rules. length rules.items ≤ 256) }
{
    let items = read_list_or_none(Section::Rules, MOST_RULES, value)?;
    rules_of(alloc, schema, ops, names, items)
}
