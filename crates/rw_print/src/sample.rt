//! The line of a sample.

ghost use Rattle.std.specs.Prelude.{◌≡◌, IfOk};
ghost use Rattle.serde_json.specs.View.{view};
ghost use Rattle.rw_print.specs.Lines.{line};
ghost use Rattle.rw_print.specs.RunLines.{sample_data};

use crate::line::{line_of, long_counts_of};
use rw_schema::OutOfMemory;
use serde_json::{Value, json};
use std::alloc::{AllocError, Global};

/// The line `{"applied":count,"end":"done","gone":count,"lists":[length,..],"new":count,"sizes":[count,..]}`: how many steps
/// were applied, how many tuples left and entered the kept lists, how long the lists are at the end, and how many parts
/// there are.
pub fn sample_line(
    alloc: Global,
    applied: u64,
    gone: u64,
    new: u64,
    lists: &Vec<u64>,
    sizes: &Vec<u64>,
) -> Result<Vec<u8>, OutOfMemory>
    ensures { IfOk result (λ text. text.items ≡ line (sample_data applied gone new lists.now.items sizes.now.items)) }
{
    let value = sample_value(
        alloc,
        applied,
        gone,
        new,
        lists.as_slice(),
        sizes.as_slice(),
    )?;
    line_of(alloc, &value)
}

fn sample_value(
    alloc: Global,
    applied: u64,
    gone: u64,
    new: u64,
    lists: &[u64],
    sizes: &[u64],
) -> Result<Value, AllocError>
    ensures { IfOk result (λ value. view value ≡ sample_data applied gone new lists.now sizes.now) }
{
    let lists = Value::Array(long_counts_of(alloc, lists)?);
    let sizes = Value::Array(long_counts_of(alloc, sizes)?);
    json!(in alloc; {"applied": applied, "end": "done", "gone": gone, "lists": lists, "new": new, "sizes": sizes})
}
