//! A line of one value.

ghost use Rattle.std.specs.Prelude.{◌≡◌, IfOk, false, map};
ghost use Rattle.serde_json.specs.View.{view};
ghost use Rattle.serde_json.specs.Written.{has_float};
ghost use Rattle.rw_print.specs.Lines.{line, count_data};

use rw_schema::OutOfMemory;
use serde_json::Value;
use std::alloc::{AllocError, Global};

/// The compact text of the value, and a line feed.
pub(crate) fn line_of(alloc: Global, value: &Value) -> Result<Vec<u8>, OutOfMemory>
    requires { has_float (view value.now) ≡ false }
    ensures { IfOk result (λ text. text.items ≡ line (view value.now)) }
{
    let mut text = value.to_string(alloc)?.into_bytes();
    text.push(b'\n')?;
    Ok(text)
}

/// The numbers as a list of values.
pub(crate) fn counts_of(alloc: Global, counts: &[u32]) -> Result<Vec<Value>, AllocError>
    ensures { IfOk result (λ values. map view values.items ≡ map count_data counts.now) }
{
    let mut values = Vec::new(alloc);
    for count in counts {
        values.push(Value::from(*count))?;
    }
    Ok(values)
}

/// The same of longer numbers.
pub(crate) fn long_counts_of(alloc: Global, counts: &[u64]) -> Result<Vec<Value>, AllocError>
    ensures { IfOk result (λ values. map view values.items ≡ map count_data counts.now) }
{
    let mut values = Vec::new(alloc);
    for count in counts {
        values.push(Value::from(*count))?;
    }
    Ok(values)
}
