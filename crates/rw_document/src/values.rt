//! The JSON value that bytes are, and its members.

ghost use Rattle.std.specs.Prelude.{◌≡◌};
ghost use Rattle.serde_json.specs.Find.{get};
ghost use Rattle.serde_json.specs.Read.{read};
ghost use Rattle.serde_json.specs.View.{view};
ghost use Rattle.rw_schema.specs.declared.section.Section.TheVariants.{Whole};
ghost use Rattle.rw_doc.specs.Chain.{some_or};
ghost use Rattle.rw_doc.specs.Faults.{fault_of};
ghost use Rattle.rw_doc.specs.Gives.{Gives};
ghost use Rattle.rw_doc.specs.declared.end.ReadDocEnd.TheVariants.{Refused};
ghost use Rattle.rw_document.specs.Documents as spec;

use rw_doc::{ReadDocEnd, count_of, has_only, refused_of};
use rw_schema::Section;
use serde_json::Value;
use std::alloc::Global;
use std::str;

/// The format without blank cells.
const FULL: u64 = 1;

/// The format in which cells of the instance may be blank.
const WITH_BLANKS: u64 = 2;

/// The keys of a document.
const KEYS: [&str; 8] = [
    "cospan", "format", "instance", "rules", "schedule", "schema", "span", "watches",
];

/// The code of bytes that are no JSON text.
const NOT_JSON: u8 = 1;

/// The code of a value that has not the form of a document.
const NOT_FORM: u8 = 2;

/// The code of a format that is not read.
const OTHER_FORMAT: u8 = 3;

/// The end of a reading with a fault of the whole document.
fn refused(code: u8) -> ReadDocEnd
    ensures { result ≡ Refused (fault_of code Whole) }
{
    refused_of(code, Section::Whole)
}

/// The member of the document at a key.
fn member<'v>(key: &str, value: &'v Value) -> Result<&'v Value, ReadDocEnd>
    ensures { Gives (λ member. view member.now) result (some_or (fault_of 2 Whole) (get key.now (view value.now))) }
{
    value.get(key).ok_or(refused(NOT_FORM))
}

/// The format, where it is one that is read.
fn read_format(value: &Value) -> Result<u64, ReadDocEnd>
    ensures { Gives (λ number. number) result (spec.read_format (view value.now)) }
{
    let number = count_of(value).ok_or(refused(NOT_FORM))?;
    if number == FULL || number == WITH_BLANKS {
        Ok(number)
    } else {
        Err(refused(OTHER_FORMAT))
    }
}

/// What is written of the schema, in a document whose own keys are known and whose format is read.
pub(crate) fn schema_in(value: &Value) -> Result<&Value, ReadDocEnd>
    ensures { Gives (λ member. view member.now) result (spec.schema_in (view value.now)) }
{
    if !has_only(&KEYS, value) {
        return Err(refused(NOT_FORM));
    }
    let schema = member("schema", value)?;
    let format = member("format", value)?;
    read_format(format)?;
    Ok(schema)
}

/// Whether cells of the instance may be blank.
pub(crate) fn allows_blanks(value: &Value) -> bool
    ensures { result ≡ spec.allows_blanks (view value.now) }
{
    let Some(format) = value.get("format") else {
        return false;
    };
    match count_of(format) {
        Some(number) => number == WITH_BLANKS,
        None => false,
    }
}

/// The JSON value that a text is.
fn parse(alloc: Global, text: &str) -> Result<Value, ReadDocEnd>
    ensures { Gives view result (some_or (fault_of 1 Whole) (read text.now)) }
{
    match Value::from_str(alloc, text) {
        Ok(value) => Ok(value),
        Err(error) => {
            if error.is_memory() {
                Err(ReadDocEnd::OutOfMemory)
            } else {
                Err(refused(NOT_JSON))
            }
        }
    }
}

/// The JSON value that bytes are.
pub(crate) fn read_json(alloc: Global, bytes: &[u8]) -> Result<Value, ReadDocEnd>
    ensures { Gives view result (spec.read_json bytes.now) }
{
    match str::from_utf8(bytes) {
        Ok(text) => parse(alloc, text),
        Err(_) => Err(refused(NOT_JSON)),
    }
}
