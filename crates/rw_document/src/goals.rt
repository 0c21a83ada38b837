//! The rules and the watches of a document.

ghost use Rattle.std.specs.Prelude.{◌≡◌, ◌<◌, ◌≤◌, ◌^◌, All, IfOk, length};
ghost use Rattle.serde_json.specs.View.{view};
ghost use Rattle.rw_schema.specs.Presentation.{signature_of};
ghost use Rattle.rw_terms.specs.OpEntries.{entries};
ghost use Rattle.rw_rule.specs.RuleParts.{lists_of_watch, rule_of_parts};
ghost use Rattle.rw_doc.specs.Gives.{Gives};
ghost use Rattle.rw_docrule.specs.Known.{IsRuleUnlessCyclic};
ghost use Rattle.rw_docwatch.specs.Known.{IsWatchRead};
ghost use Rattle.rw_document.specs.Documents as spec;
ghost use Rattle.rw_document.specs.Views.{goals_read};

use rw_doc::ReadDocEnd;
use rw_docrule::{RuleRead, read_rules};
use rw_docwatch::read_watches;
use rw_rule::Watch;
use rw_schema::{NameIndex, Schema};
use rw_terms::OpTable;
use serde_json::Value;
use std::alloc::Global;

/// The rules and the watches of a document.
#[derive(Drop)]
pub(crate) struct Goals {
    pub(crate) rules: Vec<RuleRead>,
    pub(crate) watches: Vec<Watch>,
}

/// The rules and the watches that are written, which share one list of names.
pub(crate) fn read_goals(
    alloc: Global,
    schema: &Schema,
    ops: &OpTable,
    value: &Value,
) -> Result<Goals, ReadDocEnd>
    requires { length (entries ops.now) < 2 ^ 32 }
    ensures gives { Gives goals_read result (spec.read_goals schema.now (entries ops.now) (view value.now)) }
    ensures rules { IfOk result (λ goals. All (λ read. IsRuleUnlessCyclic (signature_of schema.now) (length (entries ops.now)) (rule_of_parts read.parts)) goals.rules.items) }
    ensures few_rules { IfOk result (λ goals. length goals.rules.items ≤ 256) }
    ensures watches { IfOk result (λ goals. All (λ watch. IsWatchRead (signature_of schema.now) (lists_of_watch watch)) goals.watches.items) }
    ensures few_watches { IfOk result (λ goals. length goals.watches.items ≤ 64) }
{
    let mut names = NameIndex::new(alloc);
    let rules = read_rules(alloc, schema, ops, &mut names, value.get("rules"))?;
    let watches = read_watches(alloc, schema, &mut names, value.get("watches"))?;
    Ok(Goals { rules, watches })
}
