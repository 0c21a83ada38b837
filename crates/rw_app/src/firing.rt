//! One firing of a rule's box.

ghost use Rattle.std.specs.Prelude.{◌≡◌, ◌≤◌, ◌+◌, ◌∷◌, IfOk, OnOk, List, Some, None, length, map};
ghost use Rattle.std.specs.List.{All};
ghost use Rattle.rw_schema.specs.Presentation.{signature_of};
ghost use Rattle.rw_columns.specs.ChangedColumns.{AreChanged, FitsColumns};
ghost use Rattle.rw_columns.specs.Kept.{lists_of_columns};
ghost use Rattle.rw_rule.specs.RuleLists.{RuleLists};
ghost use Rattle.rw_terms.specs.OpEntries.{entries};
ghost use Rattle.rw_terms.specs.OpTables.{codes_of};
ghost use Rattle.rw_document.specs.Models.{document_lists, IsSound};
ghost use Rattle.rw_lists.specs.News.{differences as differences_of, numbered_lists};
ghost use Rattle.rw_print.specs.Lines.{IsKnown};
ghost use Rattle.rw_app.specs.Kept.{HasGoals, lists_in};
ghost use Rattle.rw_app.specs.Picked.{IsPick};
ghost use Rattle.rw_app.specs.Runners.{IsFiring, IsWorld};
ghost use Rattle.rw_app.specs.Runs.{Firing};

use crate::kept::kept_lists;
use crate::pick::{Applied, Pick, pick_first};
use crate::world::World;
use rw_columns::{Change, Columns};
use rw_document::Document;
use rw_lists::{ListsNews, differences};
use rw_pattern::Tuple;
use rw_print::step_line;
use rw_rule::{Refusal, Rule};
use rw_schema::OutOfMemory;
use rw_steps::Steps;
use rw_terms::OpTable;
use std::alloc::Global;
use std::sync::ledger::Ledger;

/// What a firing gives: its line, and whether a match was applied.
#[derive(Drop)]
pub(crate) struct Fired {
    pub(crate) line: Vec<u8>,
    pub(crate) applied: bool,
}

/// Fires the box of the first rule: the first match without an obstruction is applied, and the state is that after it. For
/// want of memory the state may be another.
pub(crate) fn fire<L: Ledger>(
    alloc: Global,
    document: &Document,
    rule: &Rule,
    world: &mut World,
    ops: &OpTable,
    steps: &mut Steps<L>,
) -> Result<Fired, OutOfMemory>
    requires sound { IsSound (length (entries ops.now)) (document_lists document.now) }
    requires rule { (others : List RuleLists) × (document.now.rules.items ≡ rule.now ∷ others) }
    requires world { IsWorld (document_lists document.now) world.old }
    ensures { IfOk result (λ fired. (firing : Firing) × IsFiring (codes_of (entries ops.now)) (document_lists document.now) rule.now world.old world.new fired firing) }
{
    let Pick { refused, applied } = pick_first(
        alloc,
        &document.schema,
        rule,
        &world.columns,
        world.lists[0].as_slice(),
        ops,
        steps,
    )?;
    match applied {
        Some(applied) => step(alloc, document, rule, world, applied, &refused, ops, steps),
        None => stay(alloc, document, rule, world, &refused, ops),
    }
}

/// The firing that applied a match: all lists are made afresh.
fn step<L: Ledger>(
    alloc: Global,
    document: &Document,
    rule: &Rule,
    world: &mut World,
    applied: Applied,
    refused: &Vec<(Tuple, Refusal)>,
    _ops: &OpTable,
    steps: &mut Steps<L>,
) -> Result<Fired, OutOfMemory>
    requires sound { IsSound (length (entries _ops.now)) (document_lists document.now) }
    requires world { IsWorld (document_lists document.now) world.old }
    requires pick { IsPick (signature_of document.now.schema) (codes_of (entries _ops.now)) rule.now (lists_of_columns world.old.columns) (record { refused = refused.now; applied = Some applied }) }
    requires known { All (λ entry. IsKnown document.now.schema entry.1) refused.now.items }
    ensures { IfOk result (λ fired. (firing : Firing) × IsFiring (codes_of (entries _ops.now)) (document_lists document.now) rule.now world.old world.new fired firing) }
{
    // The schema presents a category.
    let _arrows = document.schema.arrow_list();
    let Applied { tuple, change } = applied;
    carry_out(&mut world.columns, change)?;
    let news = renew_lists(alloc, document, world, steps)?;
    let line = step_line(
        alloc,
        &document.schema,
        0,
        rule.name(),
        Some(&tuple),
        &news,
        refused,
    )?;
    Ok(Fired {
        line,
        applied: true,
    })
}

/// Makes the room that the change takes, and carries it out.
fn carry_out(columns: &mut Columns, change: Change) -> Result<(), OutOfMemory>
    requires { FitsColumns columns.old change }
    ensures { OnOk result (AreChanged columns.old change columns.new) }
{
    columns.make_room(&change)?;
    columns.commit(change);
    Ok(())
}

/// Makes the kept lists afresh. What left and entered each is answered.
fn renew_lists<L: Ledger>(
    alloc: Global,
    document: &Document,
    world: &mut World,
    steps: &mut Steps<L>,
) -> Result<ListsNews, OutOfMemory>
    requires goals { HasGoals (document_lists document.now) }
    requires columns { world.old.columns.signature ≡ signature_of document.now.schema }
    requires lists { length world.old.lists.items ≡ length document.now.rules.items + length document.now.watches.items }
    ensures columns { OnOk result (world.new.columns ≡ world.old.columns) }
    ensures lists { OnOk result (map (λ list. list.items) world.new.lists.items ≡ lists_in (document_lists document.now) (lists_of_columns world.old.columns)) }
    ensures news { IfOk result (λ news. numbered_lists news ≡ differences_of (map (λ list. list.items) world.old.lists.items) (lists_in (document_lists document.now) (lists_of_columns world.old.columns))) }
{
    let lists = kept_lists(alloc, document, &world.columns, steps)?;
    let news = differences(alloc, world.lists.as_slice(), lists.as_slice())?;
    world.lists = lists;
    Ok(news)
}

/// The firing that applied nothing: the state stays.
fn stay(
    alloc: Global,
    document: &Document,
    rule: &Rule,
    world: &World,
    refused: &Vec<(Tuple, Refusal)>,
    _ops: &OpTable,
) -> Result<Fired, OutOfMemory>
    requires sound { IsSound (length (entries _ops.now)) (document_lists document.now) }
    requires world { IsWorld (document_lists document.now) world.now }
    requires pick { IsPick (signature_of document.now.schema) (codes_of (entries _ops.now)) rule.now (lists_of_columns world.now.columns) (record { refused = refused.now; applied = None }) }
    requires known { All (λ entry. IsKnown document.now.schema entry.1) refused.now.items }
    ensures { IfOk result (λ fired. (firing : Firing) × IsFiring (codes_of (entries _ops.now)) (document_lists document.now) rule.now world.now world.now fired firing) }
{
    let news = ListsNews {
        lists: Vec::new(alloc),
    };
    let line = step_line(
        alloc,
        &document.schema,
        0,
        rule.name(),
        None,
        &news,
        refused,
    )?;
    Ok(Fired {
        line,
        applied: false,
    })
}
