//! The line of a check.

ghost use Rattle.std.specs.Prelude.{◌≡◌, IfOk};
ghost use Rattle.serde_json.specs.View.{view};
ghost use Rattle.rw_print.specs.Lines.{line, check_data};

use crate::line::{line_of, long_counts_of};
use rw_schema::OutOfMemory;
use serde_json::{Value, json};
use std::alloc::{AllocError, Global};

/// The line `{"lists":[length,..],"sizes":[count,..]}`.
pub fn check_line(alloc: Global, lists: &Vec<u64>, sizes: &Vec<u64>) -> Result<Vec<u8>, OutOfMemory>
    ensures { IfOk result (λ text. text.items ≡ line (check_data lists.now.items sizes.now.items)) }
{
    let value = check_value(alloc, lists.as_slice(), sizes.as_slice())?;
    line_of(alloc, &value)
}

fn check_value(alloc: Global, lists: &[u64], sizes: &[u64]) -> Result<Value, AllocError>
    ensures { IfOk result (λ value. view value ≡ check_data lists.now sizes.now) }
{
    let lists = Value::Array(long_counts_of(alloc, lists)?);
    let sizes = Value::Array(long_counts_of(alloc, sizes)?);
    json!(in alloc; {"lists": lists, "sizes": sizes})
}
