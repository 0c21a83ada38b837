//! `rewrite`: lists the matches of patterns in attributed C-sets, and rewrites them by rules. It reads one JSON document from standard input
//! and writes to standard output; README.md has its commands.
#![tactic(auto)]

ghost use Rattle.std.specs.Prelude.{◌≡◌, ◌<◌, length};
ghost use Rattle.rw_app.specs.Operations.{usual_operations};
ghost use Rattle.rw_terms.specs.OpEntries.{entries};
ghost use Rattle.rw_terms.specs.OpValues.{op_value};

use rw_app::{Status, run_words};
use rw_outside::{Sink, Source, StdSink, StdSource};
use rw_schema::Text;
use rw_steps::Steps;
use rw_terms::{Op, OpCode, OpFault, OpTable, Run};
use std::alloc::Global;
use std::marker::Brand;
use std::process::ExitCode;
use std::sync::ledger::{Blank, Ledger};
use std::{env, io};

/// The number that the program ends with where making what it hands in found no memory.
const NO_MEMORY: u8 = 6;

/// The number that the program ends with where the runtime refuses its words for another cause.
const NO_WORDS: u8 = 10;

/// The operations that a document can name.
const OPERATIONS: [(&str, OpCode); 8] = [
    ("add", OpCode::Add),
    ("sub", OpCode::Sub),
    ("mul", OpCode::Mul),
    ("div", OpCode::Div),
    ("rem", OpCode::Rem),
    ("min", OpCode::Min),
    ("max", OpCode::Max),
    ("less", OpCode::Less),
];

fn main(rt: HostRuntime) -> ExitCode {
    let words = match words_of(&rt) {
        Ok(words) => words,
        Err(number) => return ExitCode::from(number),
    };
    let mut source = StdSource::new(rt.reader());
    let mut sink = StdSink::new(io::writer(&rt));
    match run_with_operations(rt.alloc(), &words, &mut source, &mut sink) {
        Ok(status) => ExitCode::from(status.number()),
        Err(_) => ExitCode::from(NO_MEMORY),
    }
}

/// The words after the program's name, or the number to end with.
fn words_of(rt: &HostRuntime) -> Result<Vec<String>, u8> {
    let args = match env::args(rt) {
        Ok(args) => args,
        Err(error) if error.kind() == io::ErrorKind::OutOfMemory => return Err(NO_MEMORY),
        Err(_) => return Err(NO_WORDS),
    };
    let mut words = Vec::new(rt.alloc());
    for word in args.skip(1) {
        if words.push(word).is_err() {
            return Err(NO_MEMORY);
        }
    }
    Ok(words)
}

/// Does what the words ask for, with a table of the operations.
fn run_with_operations<S: Source, K: Sink>(
    alloc: Global,
    words: &Vec<String>,
    source: &mut S,
    sink: &mut K,
) -> Result<Status, OpFault> {
    let mut ops = OpTable::new(alloc);
    for (name, code) in OPERATIONS {
        let run: Run = Box::new(
            alloc,
            move |x: i64, y: i64| -> Option<i64>
                ensures { result ≡ op_value code x y }
            { code.value(x, y) },
        )
        .map_err(|_| OpFault::OutOfMemory)?;
        let name = Text::of(alloc, name)?;
        ops.add(alloc, Op::new(name, code, run))?;
    }
    Ok(run::<_, _, Brand>(alloc, words, source, sink, &ops, Blank::new(1)))
}

/// Does what the words ask for. Nobody reads the steps.
fn run<S: Source, K: Sink, L: Ledger>(
    alloc: Global,
    words: &Vec<String>,
    source: &mut S,
    sink: &mut K,
    ops: &OpTable,
    blank: Blank,
) -> Status
    requires ops { entries ops.now ≡ usual_operations }
    requires name { blank.name ≡ L.name }
    requires parts { blank.parts ≡ L.parts }
    requires some { 0 < L.parts }
{
    let mut steps: Steps<L> = Steps::new(blank);
    run_words(alloc, words, source, sink, ops, &mut steps)
}
