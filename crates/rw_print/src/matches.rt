//! The line of a list of matches.

ghost use Rattle.std.specs.Prelude.{◌≡◌, IfOk, map};
ghost use Rattle.serde_json.specs.View.{view};
ghost use Rattle.rw_print.specs.Lines.{line, tuple_data, matches_data};

use crate::line::{counts_of, line_of};
use rw_pattern::Tuple;
use rw_schema::{OutOfMemory, Text};
use serde_json::{Value, json};
use std::alloc::{AllocError, Global};

/// The line `{"matches":[tuple,..],"name":name}`.
pub fn matches_line(alloc: Global, name: &Text, tuples: &Vec<Tuple>) -> Result<Vec<u8>, OutOfMemory>
    ensures { IfOk result (λ text. text.items ≡ line (matches_data name.now tuples.now.items)) }
{
    let value = matches_value(alloc, name, tuples.as_slice())?;
    line_of(alloc, &value)
}

fn matches_value(alloc: Global, name: &Text, tuples: &[Tuple]) -> Result<Value, AllocError>
    ensures { IfOk result (λ value. view value ≡ matches_data name.now tuples.now) }
{
    let matches = Value::Array(tuple_values(alloc, tuples)?);
    json!(in alloc; {"matches": matches, "name": name.as_str()})
}

/// The tuples as a list of values.
pub(crate) fn tuple_values(alloc: Global, tuples: &[Tuple]) -> Result<Vec<Value>, AllocError>
    ensures { IfOk result (λ values. map view values.items ≡ map tuple_data tuples.now) }
{
    let mut values = Vec::new(alloc);
    for tuple in tuples {
        values.push(Value::Array(counts_of(alloc, tuple.names())?))?;
    }
    Ok(values)
}
