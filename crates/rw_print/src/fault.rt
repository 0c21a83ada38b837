//! The line of a fault.

ghost use Rattle.std.specs.Prelude.{◌≡◌, IfOk};
ghost use Rattle.serde_json.specs.View.{view};
ghost use Rattle.rw_print.specs.Lines.{line, fault_data};

use crate::line::line_of;
use rw_schema::{OutOfMemory, Section};
use serde_json::{Value, json};
use std::alloc::{AllocError, Global};

/// The line `{"at":[first,second,third],"fault":code,"section":name}`.
pub fn fault_line(
    alloc: Global,
    code: u8,
    section: Section,
    first: u32,
    second: u32,
    third: u32,
) -> Result<Vec<u8>, OutOfMemory>
    ensures { IfOk result (λ text. text.items ≡ line (fault_data code section first second third)) }
{
    let value = fault_value(alloc, code, section, first, second, third)?;
    line_of(alloc, &value)
}

fn fault_value(
    alloc: Global,
    code: u8,
    section: Section,
    first: u32,
    second: u32,
    third: u32,
) -> Result<Value, AllocError>
    ensures { IfOk result (λ value. view value ≡ fault_data code section first second third) }
{
    json!(in alloc; {"at": [first, second, third], "fault": code, "section": section.name()})
}
