//! The kept lists of a document.

ghost use Rattle.std.specs.Prelude.{◌≡◌, ◌++◌, IfOk, OnOk, map};
ghost use Rattle.std.specs.List.{All};
ghost use Rattle.rw_schema.specs.Presentation.{signature_of};
ghost use Rattle.rw_columns.specs.Kept.{lists_of_columns};
ghost use Rattle.rw_rule.specs.RuleLists.{RuleLists};
ghost use Rattle.rw_rule.specs.RuleParts.{goal_of_parts};
ghost use Rattle.rw_lists.specs.Fresh.{IsListable, fresh_list as fresh_list_of};
ghost use Rattle.rw_document.specs.Models.{document_lists};
ghost use Rattle.rw_app.specs.Kept.{HasGoals, lists_in};

use crate::listed::Listed;
use rw_columns::Columns;
use rw_delta::Probe;
use rw_document::Document;
use rw_lists::fresh_list;
use rw_pattern::Tuple;
use rw_rule::{Rule, Watch};
use rw_schema::{OutOfMemory, Schema};
use rw_steps::Steps;
use std::alloc::Global;
use std::sync::ledger::Ledger;

/// The kept lists in an instance over the document's schema: of each rule and then of each watch all its matches.
pub(crate) fn kept_lists<L: Ledger>(
    alloc: Global,
    document: &Document,
    columns: &Columns,
    steps: &mut Steps<L>,
) -> Result<Vec<Vec<Tuple>>, OutOfMemory>
    requires goals { HasGoals (document_lists document.now) }
    requires columns { columns.now.signature ≡ signature_of document.now.schema }
    ensures { IfOk result (λ lists. map (λ list. list.items) lists.items ≡ lists_in (document_lists document.now) (lists_of_columns columns.now)) }
{
    let host = Listed::of(&document.schema, columns);
    let mut lists = Vec::new(alloc);
    push_rules(
        alloc,
        &document.schema,
        document.rules.as_slice(),
        &host,
        &mut lists,
        steps,
    )?;
    push_watches(
        alloc,
        &document.schema,
        document.watches.as_slice(),
        &host,
        &mut lists,
        steps,
    )?;
    Ok(lists)
}

/// Puts the list of each rule behind the others.
fn push_rules<P: Probe, L: Ledger>(
    alloc: Global,
    schema: &Schema,
    rules: &[Rule],
    probe: &P,
    lists: &mut Vec<Vec<Tuple>>,
    steps: &mut Steps<L>,
) -> Result<(), OutOfMemory>
    requires rules { All (λ (rule : RuleLists). IsListable (signature_of schema.now) rule.goal) rules.now }
    requires probe { P.signature probe.now ≡ signature_of schema.now }
    ensures { OnOk result (map (λ list. list.items) lists.new.items ≡ map (λ list. list.items) lists.old.items
        ++ map (λ (rule : RuleLists). fresh_list_of (signature_of schema.now) (P.instance probe.now) rule.goal) rules.now) }
{
    for rule in rules {
        lists.push(fresh_list(alloc, schema, rule.goal(), probe, steps)?)?;
    }
    Ok(())
}

/// Puts the list of each watch behind the others.
fn push_watches<P: Probe, L: Ledger>(
    alloc: Global,
    schema: &Schema,
    watches: &[Watch],
    probe: &P,
    lists: &mut Vec<Vec<Tuple>>,
    steps: &mut Steps<L>,
) -> Result<(), OutOfMemory>
    requires watches { All (λ watch. IsListable (signature_of schema.now) (goal_of_parts watch.goal)) watches.now }
    requires probe { P.signature probe.now ≡ signature_of schema.now }
    ensures { OnOk result (map (λ list. list.items) lists.new.items ≡ map (λ list. list.items) lists.old.items
        ++ map (λ watch. fresh_list_of (signature_of schema.now) (P.instance probe.now) (goal_of_parts watch.goal)) watches.now) }
{
    for watch in watches {
        lists.push(fresh_list(alloc, schema, &watch.goal, probe, steps)?)?;
    }
    Ok(())
}
