//! The answer of a command: from the bytes of a document to a status and a text.

ghost use Rattle.std.specs.Prelude.{◌≡◌, ◌<◌, ◌^◌, IfOk, None, Ok, find, length, map};
ghost use Rattle.rw_schema.specs.Presentation.{signature_of};
ghost use Rattle.std.specs.Option.{option_map};
ghost use Rattle.std.specs.Str.{bytes_eq};
ghost use Rattle.rw_spec.specs.Tabled.{IsOver};
ghost use Rattle.rw_rule.specs.RuleParts.{goal_of_parts};
ghost use Rattle.rw_terms.specs.OpEntries.{entries};
ghost use Rattle.rw_lists.specs.Fresh.{IsListable};
ghost use Rattle.rw_document.specs.Models.{document_lists, IsSound};
ghost use Rattle.rw_app.specs.AnswerText.{refusal as refusal_of};
ghost use Rattle.rw_app.specs.Answers.{IsAnswer, IsAnswerTo, checked, listed};
ghost use Rattle.rw_app.specs.AnswerTexts.{text_of_answer};
ghost use Rattle.rw_app.specs.Commands.{asked_for, matches};
ghost use Rattle.rw_app.specs.Kept.{HasGoals, named_goals};
ghost use Rattle.rw_app.specs.RunTexts.{sizes_in};
ghost use Rattle.rw_app.specs.declared.status.Status.TheVariants.{Done};
ghost use Rattle.rw_print.specs.Lines.{line, check_data};

use crate::counts::{lengths_of, sizes_of};
use crate::kept::kept_lists;
use crate::limits::{pull_back, push_out};
use crate::listed::Listed;
use crate::named::{Named, goal_named};
use crate::runner::run_document;
use crate::world::columns_of;
use crate::{Command, Status};
use rw_doc::{DocFault, ReadDocEnd};
use rw_document::{Document, read_document};
use rw_lists::fresh_list;
use rw_pattern::Tuple;
use rw_print::{check_line, fault_line, matches_line};
use rw_schema::{MOST_OBJECTS, OutOfMemory, Schema, Section};
use rw_steps::Steps;
use rw_table::Table;
use rw_terms::OpTable;
use std::alloc::Global;
use std::sync::ledger::Ledger;

/// What a command answers: how it ends, and the text that it writes.
#[derive(Drop)]
pub struct Answer {
    pub status: Status,
    pub text: Vec<u8>,
}

/// The answer of a command to the bytes of a document, whose terms can name the operations of the table.
pub fn answer_command<L: Ledger>(
    alloc: Global,
    command: Command<'_>,
    bytes: &[u8],
    ops: &OpTable,
    steps: &mut Steps<L>,
) -> Result<Answer, OutOfMemory>
    requires { length (entries ops.now) < 2 ^ 32 }
    ensures { IfOk result (λ answer. IsAnswer (entries ops.now) (asked_for command.entry) bytes.now (text_of_answer answer)) }
{
    match read_document(alloc, bytes, ops) {
        Ok(document) => answer_about(alloc, command, &document, ops, steps),
        Err(ReadDocEnd::Refused(fault)) => refusal(alloc, fault),
        Err(ReadDocEnd::OutOfMemory) => Err(OutOfMemory),
    }
}

/// The answer about a document without a fault.
fn answer_about<L: Ledger>(
    alloc: Global,
    command: Command<'_>,
    document: &Document,
    ops: &OpTable,
    steps: &mut Steps<L>,
) -> Result<Answer, OutOfMemory>
    requires { IsSound (length (entries ops.now)) (document_lists document.now) }
    ensures { IfOk result (λ answer. IsAnswerTo (entries ops.now) (asked_for command.entry) (Ok (document_lists document.now)) (text_of_answer answer)) }
{
    match command {
        Command::Matches(name) => list_matches(alloc, name, document, steps),
        Command::Run { fuel, seed: _ } => run_document(alloc, document, fuel, ops, steps),
        Command::Check => check_document(alloc, document, steps),
        Command::Pushout => push_out(alloc, document),
        Command::Pullback => pull_back(alloc, document),
    }
}

/// The matches of the rule or the watch with the name.
fn list_matches<L: Ledger>(
    alloc: Global,
    name: &str,
    document: &Document,
    steps: &mut Steps<L>,
) -> Result<Answer, OutOfMemory>
    requires { HasGoals (document_lists document.now) }
    ensures { IfOk result (λ answer. text_of_answer answer ≡ listed (document_lists document.now) (find (λ named. bytes_eq name.now named.name) (named_goals (document_lists document.now)))) }
{
    match goal_named(document, name) {
        Some(named) => list_goal(alloc, document, named, steps),
        None => refusal(
            alloc,
            DocFault {
                code: 6,
                section: Section::Whole,
                first: 0,
                second: 0,
                third: 0,
            },
        ),
    }
}

/// The matches of a goal.
fn list_goal<L: Ledger>(
    alloc: Global,
    document: &Document,
    named: Named<'_>,
    steps: &mut Steps<L>,
) -> Result<Answer, OutOfMemory>
    requires table { IsOver document.now.schema document.now.table }
    requires goal { IsListable (signature_of document.now.schema) (goal_of_parts named.goal.now) }
    ensures { IfOk result (λ answer. text_of_answer answer ≡ listed (document_lists document.now) (Some (record { name = named.entry.name.now; goal = goal_of_parts named.entry.goal.now }))) }
{
    let columns = columns_of(alloc, &document.schema, &document.table)?;
    let host = Listed::of(&document.schema, &columns);
    let tuples = fresh_list(alloc, &document.schema, named.goal, &host, steps)?;
    let text = matches_line(alloc, named.name, &tuples)?;
    Ok(Answer {
        status: Status::Done,
        text,
    })
}

/// The lengths of the kept lists, and the numbers of parts.
fn check_document<L: Ledger>(
    alloc: Global,
    document: &Document,
    steps: &mut Steps<L>,
) -> Result<Answer, OutOfMemory>
    requires { HasGoals (document_lists document.now) }
    ensures { IfOk result (λ answer. text_of_answer answer ≡ checked (document_lists document.now)) }
{
    let columns = columns_of(alloc, &document.schema, &document.table)?;
    let kept = kept_lists(alloc, document, &columns, steps)?;
    count_lists(alloc, &document.schema, &document.table, kept.as_slice())
}

/// The lengths of the lists, and the numbers of parts in the table.
fn count_lists(
    alloc: Global,
    schema: &Schema,
    table: &Table,
    kept: &[Vec<Tuple>],
) -> Result<Answer, OutOfMemory>
    requires { IsOver schema.now table.now }
    ensures { IfOk result (λ answer. text_of_answer answer ≡ record {
      status = Done;
      text = line (check_data (map (λ list. length list.items) kept.now) (sizes_in table.now.rows));
    }) }
{
    prove!(schema.objects() <= MOST_OBJECTS);
    let lists = lengths_of(alloc, kept)?;
    let sizes = sizes_of(alloc, table.rows())?;
    let text = check_line(alloc, &lists, &sizes)?;
    Ok(Answer {
        status: Status::Done,
        text,
    })
}

/// A document or a command that is refused is answered by the line of its fault.
pub(crate) fn refusal(alloc: Global, fault: DocFault) -> Result<Answer, OutOfMemory>
    ensures { IfOk result (λ answer. text_of_answer answer ≡ refusal_of fault) }
{
    let text = fault_line(
        alloc,
        fault.code,
        fault.section,
        fault.first,
        fault.second,
        fault.third,
    )?;
    Ok(Answer {
        status: Status::Refused(fault),
        text,
    })
}
