//! The top call: from words and a source to a sink.

ghost use Rattle.std.specs.Prelude.{◌≡◌, ◌<◌, ◌≤◌, ◌^◌, None, length, map, string_bytes, take};
ghost use Rattle.rw_terms.specs.OpEntries.{entries};
ghost use Rattle.rw_app.specs.Operations.{usual_operations};
ghost use Rattle.rw_app.specs.Answers.{IsAnswer};
ghost use Rattle.rw_app.specs.Commands.{asked_for, request_of};
ghost use Rattle.rw_app.specs.Endings.{Ends, EndsUnread, EndsAsAsked, EndsWritten, IsComplete, IsOfAnswer};
ghost use Rattle.rw_app.specs.AnswerTexts.{text_of_answer};

use crate::Status;
use crate::answer::{Answer, answer_command};
use crate::command::{Command, USAGE, command_of};
use rw_outside::{ReadEnd, Sink, Source, WriteEnd, read_all, write_all};
use rw_schema::OutOfMemory;
use rw_steps::Steps;
use rw_terms::OpTable;
use std::alloc::Global;
use std::sync::ledger::Ledger;

/// The greatest number of bytes that are read.
pub const MOST_BYTES: usize = 67_108_864;

/// Does what the words ask for: reads a document from the source to its end, and writes the command's text to the
/// sink. Terms of a document can name the operations of the table, of which the first eight are those of docs/FORMAT.md.
/// Words that ask for nothing get the usage line; that takes no memory. Each reading of
/// the instance by a search is counted.
pub fn run_words<S: Source, K: Sink, L: Ledger>(
    alloc: Global,
    words: &Vec<String>,
    source: &mut S,
    sink: &mut K,
    ops: &OpTable,
    steps: &mut Steps<L>,
) -> Status
    requires usual { take 8 (entries ops.now) ≡ usual_operations }
    requires few { length (entries ops.now) < 2 ^ 32 }
    ensures ends { EndsAsAsked (IsAnswer (entries ops.now)) (request_of (map string_bytes words.now.items))
        (record { left = S.left source.old; held = K.held sink.old; source_faults = S.faults source.old; sink_faults = K.faults sink.old })
        (record { left = S.left source.new; held = K.held sink.new; source_faults = S.faults source.new; sink_faults = K.faults sink.new }) result }
    ensures complete { IsComplete (IsAnswer (entries ops.now)) (request_of (map string_bytes words.now.items))
        (record { left = S.left source.old; held = K.held sink.old; source_faults = S.faults source.old; sink_faults = K.faults sink.old })
        (record { left = S.left source.new; held = K.held sink.new; source_faults = S.faults source.new; sink_faults = K.faults sink.new }) result }
    ensures source_faults { S.faults source.old ≤ S.faults source.new }
    ensures sink_faults { K.faults sink.old ≤ K.faults sink.new }
{
    dispatch(alloc, words, source, sink, ops, steps)
}

/// Does what the words ask for.
fn dispatch<S: Source, K: Sink, L: Ledger>(
    alloc: Global,
    words: &Vec<String>,
    source: &mut S,
    sink: &mut K,
    ops: &OpTable,
    steps: &mut Steps<L>,
) -> Status
    requires { length (entries ops.now) < 2 ^ 32 }
    ensures ends { EndsAsAsked (IsAnswer (entries ops.now)) (request_of (map string_bytes words.now.items))
        (record { left = S.left source.old; held = K.held sink.old; source_faults = S.faults source.old; sink_faults = K.faults sink.old })
        (record { left = S.left source.new; held = K.held sink.new; source_faults = S.faults source.new; sink_faults = K.faults sink.new }) result }
    ensures source_faults { S.faults source.old ≤ S.faults source.new }
    ensures sink_faults { K.faults sink.old ≤ K.faults sink.new }
{
    match command_of(words) {
        Some(command) => run_command(alloc, command, source, sink, ops, steps),
        None => write_usage(source, sink),
    }
}

/// Writes the usage line, and takes nothing from the source.
fn write_usage<S: Source, K: Sink>(source: &mut S, sink: &mut K) -> Status
    ensures ends { EndsUnread
        (record { left = S.left source.old; held = K.held sink.old; source_faults = S.faults source.old; sink_faults = K.faults sink.old })
        (record { left = S.left source.new; held = K.held sink.new; source_faults = S.faults source.new; sink_faults = K.faults sink.new }) result }
    ensures source_faults { S.faults source.old ≤ S.faults source.new }
    ensures sink_faults { K.faults sink.old ≤ K.faults sink.new }
{
    let _source = source;
    match write_all(sink, USAGE.as_bytes()) {
        Ok(()) => Status::BadWords,
        Err(WriteEnd::Fault) => Status::WriteFault,
    }
}

/// Reads a document, and writes what the command answers.
fn run_command<S: Source, K: Sink, L: Ledger>(
    alloc: Global,
    command: Command<'_>,
    source: &mut S,
    sink: &mut K,
    ops: &OpTable,
    steps: &mut Steps<L>,
) -> Status
    requires { length (entries ops.now) < 2 ^ 32 }
    ensures ends { Ends (IsAnswer (entries ops.now) (asked_for command.entry))
        (record { left = S.left source.old; held = K.held sink.old; source_faults = S.faults source.old; sink_faults = K.faults sink.old })
        (record { left = S.left source.new; held = K.held sink.new; source_faults = S.faults source.new; sink_faults = K.faults sink.new }) result }
    ensures source_faults { S.faults source.old ≤ S.faults source.new }
    ensures sink_faults { K.faults sink.old ≤ K.faults sink.new }
{
    match read_all(alloc, source, MOST_BYTES) {
        Ok(bytes) => write_answer(alloc, command, bytes.as_slice(), sink, ops, steps),
        Err(ReadEnd::Fault) => Status::ReadFault,
        Err(ReadEnd::TooLong) => Status::TooLong,
        Err(ReadEnd::OutOfMemory) => Status::NoMemory,
    }
}

/// Writes what the command answers to the bytes.
fn write_answer<K: Sink, L: Ledger>(
    alloc: Global,
    command: Command<'_>,
    bytes: &[u8],
    sink: &mut K,
    ops: &OpTable,
    steps: &mut Steps<L>,
) -> Status
    requires { length (entries ops.now) < 2 ^ 32 }
    ensures ends { EndsWritten (IsAnswer (entries ops.now) (asked_for command.entry) bytes.now)
        (record { left = None; held = K.held sink.old; source_faults = 0; sink_faults = K.faults sink.old })
        (record { left = None; held = K.held sink.new; source_faults = 0; sink_faults = K.faults sink.new }) result }
    ensures sink_faults { K.faults sink.old ≤ K.faults sink.new }
{
    match answer_command(alloc, command, bytes, ops, steps) {
        Ok(answer) => write_text(&answer, sink),
        Err(OutOfMemory) => Status::NoMemory,
    }
}

/// Writes the text of an answer, and gives its status.
fn write_text<K: Sink>(answer: &Answer, sink: &mut K) -> Status
    requires { IsOfAnswer answer.now.status }
    ensures ends { EndsWritten (λ other. other ≡ text_of_answer answer.now)
        (record { left = None; held = K.held sink.old; source_faults = 0; sink_faults = K.faults sink.old })
        (record { left = None; held = K.held sink.new; source_faults = 0; sink_faults = K.faults sink.new }) result }
    ensures sink_faults { K.faults sink.old ≤ K.faults sink.new }
{
    match write_all(sink, answer.text.as_slice()) {
        Ok(()) => answer.status,
        Err(WriteEnd::Fault) => Status::WriteFault,
    }
}
