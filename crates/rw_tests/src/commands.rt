//! What words do with a document.

ghost use Rattle.std.specs.Prelude.{◌≡◌, ◌<◌};
ghost use Rattle.rw_app.specs.Operations.{usual_operations};
ghost use Rattle.rw_terms.specs.OpEntries.{entries};
ghost use Rattle.rw_terms.specs.OpValues.{op_value};

use rw_app::{Status, run_words};
use rw_outside::{MemSink, MemSource};
use rw_schema::Text;
use rw_steps::Steps;
use rw_terms::{Op, OpCode, OpTable, Run};
use std::alloc::Global;
use std::marker::Brand;
use std::process::Abort;
use std::sync::ledger::{Blank, Ledger};
use std::test::Fail;

/// The operations that the program has.
const OPERATIONS: [(&str, OpCode); 8] = [
    ("add", OpCode::Add),
    ("sub", OpCode::Sub),
    ("mul", OpCode::Mul),
    ("div", OpCode::Div),
    ("rem", OpCode::Rem),
    ("min", OpCode::Min),
    ("max", OpCode::Max),
    ("less", OpCode::Less),
];

/// A document with a command, and what it prints.
pub(crate) struct Example {
    pub(crate) words: &'static [&'static str],
    pub(crate) document: &'static str,
    pub(crate) status: u8,
    pub(crate) printed: &'static str,
}

/// The two ends of a command: how many bytes a take gives at most, and for how many there is room, and the calls of
/// each that fail.
#[derive(Clone, Copy)]
pub(crate) struct Ends<'a> {
    pub(crate) most: usize,
    pub(crate) takes: &'a [u64],
    pub(crate) room: usize,
    pub(crate) puts: &'a [u64],
}

/// Ends of which no call fails.
const SOUND: Ends<'static> = Ends {
    most: 7,
    takes: &[],
    room: 4096,
    puts: &[],
};

/// Runs the words over both ends, where nobody reads the steps.
fn run<L: Ledger>(
    alloc: Global,
    words: &Vec<String>,
    source: &mut MemSource,
    sink: &mut MemSink,
    ops: &OpTable,
    blank: Blank,
) -> Status
    requires ops { entries ops.now ≡ usual_operations }
    requires name { blank.name ≡ L.name }
    requires parts { blank.parts ≡ L.parts }
    requires some { 0 < L.parts }
{
    let mut steps: Steps<L> = Steps::new(blank);
    run_words(alloc, words, source, sink, ops, &mut steps)
}

/// Runs the words over both ends with the program's operations.
fn finish(
    alloc: Global,
    words: &Vec<String>,
    source: &mut MemSource,
    sink: &mut MemSink,
) -> Result<Status, Fail> {
    let mut ops = OpTable::new(alloc);
    for (name, code) in OPERATIONS {
        let name = Text::of(alloc, name)?;
        let run: Run = Box::new(
            alloc,
            move |x: i64, y: i64| -> Option<i64>
                ensures { result ≡ op_value code x y }
            { code.value(x, y) },
        )?;
        ops.add(alloc, Op::new(name, code, run))?;
    }
    Ok(run::<Brand>(alloc, words, source, sink, &ops, Blank::new(1)))
}

/// A source of the document.
fn source_of(alloc: Global, document: &[u8], ends: Ends<'_>) -> Result<MemSource, Fail>
    requires { 0 < ends.most }
{
    let failing = ends.takes.to_vec(alloc)?;
    Ok(MemSource::new(document.to_vec(alloc)?, ends.most, failing))
}

/// The status of the words over the source, and whether a sink of its own holds the text then.
fn put(
    alloc: Global,
    words: &Vec<String>,
    source: &mut MemSource,
    ends: Ends<'_>,
    text: &[u8],
) -> Result<(Status, bool), Fail> {
    let mut sink = MemSink::new(alloc, ends.room, ends.puts.to_vec(alloc)?)?;
    let status = finish(alloc, words, source, &mut sink)?;
    Ok((status, sink.held() == text))
}

/// The words in memory of their own.
fn owned(alloc: Global, words: &[&str]) -> Result<Vec<String>, Fail> {
    let mut owned = Vec::new(alloc);
    for word in words {
        owned.push(String::from_str(alloc, *word)?)?;
    }
    Ok(owned)
}

/// The status of the words over the source, and whether the sink holds the text then.
pub(crate) fn answer_from(
    alloc: Global,
    words: &[&str],
    source: &mut MemSource,
    ends: Ends<'_>,
    text: &[u8],
) -> Result<(Status, bool), Fail> {
    let words = owned(alloc, words)?;
    put(alloc, &words, source, ends, text)
}

/// The status of the words over the document, and whether the sink holds the text then.
pub(crate) fn answer(
    alloc: Global,
    words: &[&str],
    document: &[u8],
    ends: Ends<'_>,
    text: &[u8],
) -> Result<(Status, bool), Fail>
    requires { 0 < ends.most }
{
    let mut source = source_of(alloc, document, ends)?;
    answer_from(alloc, words, &mut source, ends, text)
}

/// Checks the status and the text of the words over the document.
pub(crate) fn check(
    rt: &impl Abort,
    alloc: Global,
    words: &[&str],
    document: &[u8],
    number: u8,
    text: &str,
) -> Result<(), Fail> {
    let (status, is_held) = answer(alloc, words, document, SOUND, text.as_bytes())?;
    assert_eq!(rt; status.number(), number, "{text}");
    assert!(rt; is_held, "{text}");
    Ok(())
}

/// Checks the status and the text of each.
pub(crate) fn check_all(rt: &impl Abort, alloc: Global, examples: &[Example]) -> Result<(), Fail> {
    for example in examples {
        let document = example.document.as_bytes();
        check(
            rt,
            alloc,
            example.words,
            document,
            example.status,
            example.printed,
        )?;
    }
    Ok(())
}
