//! The run of a document.

ghost use Rattle.std.specs.Prelude.{◌≡◌, ◌++◌, ◌∷◌, ℕ, IfOk, List, Ok, map, length};
ghost use Rattle.rw_schema.specs.Presentation.{signature_of};
ghost use Rattle.rw_columns.specs.Kept.{lists_of_columns};
ghost use Rattle.rw_rule.specs.RuleLists.{RuleLists};
ghost use Rattle.rw_terms.specs.OpEntries.{entries};
ghost use Rattle.rw_terms.specs.OpTables.{codes_of};
ghost use Rattle.rw_document.specs.Models.{document_lists, IsSound};
ghost use Rattle.rw_print.specs.Lines.{line, end_data};
ghost use Rattle.rw_app.specs.Answers.{IsAnswerTo, status_of_end as status_of_run};
ghost use Rattle.rw_app.specs.AnswerTexts.{text_of_answer};
ghost use Rattle.rw_app.specs.Commands.{run};
ghost use Rattle.rw_app.specs.RunTexts.{sizes_in};
ghost use Rattle.rw_app.specs.Runners.{HasRun, IsWorld, rows_in};
ghost use Rattle.rw_app.specs.Runs.{Firing, Stand};

use crate::Status;
use crate::answer::Answer;
use crate::counts::{lengths_of, sizes_of};
use crate::firing::fire;
use crate::world::{World, load};
use rw_columns::Columns;
use rw_document::Document;
use rw_print::{End, end_line};
use rw_rule::Rule;
use rw_schema::{MOST_OBJECTS, OutOfMemory, Schema};
use rw_steps::Steps;
use rw_terms::OpTable;
use std::alloc::Global;
use std::sync::ledger::Ledger;

/// What a run gives: the lines of its firings, how it ended, and the fuel that is left.
#[derive(Drop)]
pub(crate) struct Ran {
    pub(crate) text: Vec<u8>,
    pub(crate) end: End,
    pub(crate) fuel: u32,
}

/// Runs the document's schedule with so much fuel. The text is held until the run has ended. The stack does not grow
/// with the fuel.
pub(crate) fn run_document<L: Ledger>(
    alloc: Global,
    document: &Document,
    fuel: u32,
    ops: &OpTable,
    steps: &mut Steps<L>,
) -> Result<Answer, OutOfMemory>
    requires { IsSound (length (entries ops.now)) (document_lists document.now) }
    ensures { IfOk result (λ answer. (seed : ℕ) → IsAnswerTo (entries ops.now) (run fuel seed) (Ok (document_lists document.now)) (text_of_answer answer)) }
{
    // The document's instance is one of the category that its schema presents.
    let _rows = document.table.rows();
    let mut world = load(alloc, document, steps)?;
    let ran = run_schedule(alloc, document, fuel, &mut world, ops, steps)?;
    finish(alloc, &document.schema, ran, &world, steps)
}

/// Runs the document's schedule from the state. For want of memory the state may be another than that at the end.
fn run_schedule<L: Ledger>(
    alloc: Global,
    document: &Document,
    fuel: u32,
    world: &mut World,
    ops: &OpTable,
    steps: &mut Steps<L>,
) -> Result<Ran, OutOfMemory>
    requires sound { IsSound (length (entries ops.now)) (document_lists document.now) }
    requires start { IsWorld (document_lists document.now) world.old }
    ensures { IfOk result (λ ran. (firings : List Firing) × ((last : Stand) × HasRun (codes_of (entries ops.now)) (document_lists document.now) fuel (rows_in world.old) ran world.new firings last)) }
{
    match document.rules.first() {
        Some(rule) => run_rule(alloc, document, rule, fuel, world, ops, steps),
        None => Ok(Ran {
            text: Vec::new(alloc),
            end: End::Done,
            fuel,
        }),
    }
}

/// Fires the box of the first rule until nothing is applied, or no fuel is left. For want of memory the state may be another
/// than that at the end.
fn run_rule<L: Ledger>(
    alloc: Global,
    document: &Document,
    rule: &Rule,
    fuel: u32,
    world: &mut World,
    ops: &OpTable,
    steps: &mut Steps<L>,
) -> Result<Ran, OutOfMemory>
    requires sound { IsSound (length (entries ops.now)) (document_lists document.now) }
    requires rule { (others : List RuleLists) × (document.now.rules.items ≡ rule.now ∷ others) }
    requires start { IsWorld (document_lists document.now) world.old }
    ensures { IfOk result (λ ran. (firings : List Firing) × ((last : Stand) × HasRun (codes_of (entries ops.now)) (document_lists document.now) fuel (rows_in world.old) ran world.new firings last)) }
{
    let mut text = Vec::new(alloc);
    let mut left = fuel;
    while left > 0 {
        let fired = fire(alloc, document, rule, world, ops, steps)?;
        text.extend_from_slice(fired.line.as_slice())?;
        left -= 1;
        if !fired.applied {
            return Ok(Ran {
                text,
                end: End::Done,
                fuel: left,
            });
        }
    }
    Ok(Ran {
        text,
        end: End::Spent,
        fuel: 0,
    })
}

/// Puts the line of the end behind the lines of the firings.
fn finish<L: Ledger>(
    alloc: Global,
    schema: &Schema,
    ran: Ran,
    world: &World,
    steps: &mut Steps<L>,
) -> Result<Answer, OutOfMemory>
    requires { world.now.columns.signature ≡ signature_of schema.now }
    ensures { IfOk result (λ answer. text_of_answer answer ≡ record {
      status = status_of_run ran.end;
      text = ran.text.items ++ line (end_data ran.end ran.fuel (map (λ list. length list.items) world.now.lists.items) (sizes_in (rows_in world.now)));
    }) }
{
    let line = line_of_end(alloc, schema, &ran, world, steps)?;
    let mut text = ran.text;
    text.extend_from_slice(line.as_slice())?;
    Ok(Answer {
        status: status_of_end(ran.end),
        text,
    })
}

/// The line of the end.
fn line_of_end<L: Ledger>(
    alloc: Global,
    schema: &Schema,
    ran: &Ran,
    world: &World,
    steps: &mut Steps<L>,
) -> Result<Vec<u8>, OutOfMemory>
    requires { world.now.columns.signature ≡ signature_of schema.now }
    ensures { IfOk result (λ text. text.items ≡ line (end_data ran.now.end ran.now.fuel (map (λ list. length list.items) world.now.lists.items) (sizes_in (rows_in world.now)))) }
{
    let lists = lengths_of(alloc, world.lists.as_slice())?;
    let sizes = sizes_in_columns(alloc, schema, &world.columns, steps)?;
    end_line(alloc, ran.end, ran.fuel, &lists, &sizes)
}

/// Of each object the number of its parts.
fn sizes_in_columns<L: Ledger>(
    alloc: Global,
    schema: &Schema,
    columns: &Columns,
    steps: &mut Steps<L>,
) -> Result<Vec<u64>, OutOfMemory>
    requires { columns.now.signature ≡ signature_of schema.now }
    ensures { IfOk result (λ sizes. sizes.items ≡ sizes_in (lists_of_columns columns.now)) }
{
    prove!(schema.objects() <= MOST_OBJECTS);
    let rows = columns.to_rows(alloc, steps)?;
    sizes_of(alloc, &rows)
}

/// The status of a run's end.
fn status_of_end(end: End) -> Status
    ensures { result ≡ status_of_run end }
{
    match end {
        End::Done => Status::Done,
        End::Failed => Status::Failed,
        End::Spent => Status::Spent,
    }
}
