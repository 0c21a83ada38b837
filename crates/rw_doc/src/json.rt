//! Pieces of JSON values, as a document has them.

ghost use Rattle.std.specs.Prelude.{◌≡◌, IfOk, map, string_bytes};
ghost use Rattle.std.specs.List.{list_all, list_any};
ghost use Rattle.std.specs.Str.{bytes_eq};
ghost use Rattle.std.specs.BTreeMap.{keys};
ghost use Rattle.serde_json.specs.View.{view};
ghost use Rattle.rw_doc.specs.Json as spec;

use rw_schema::{Atom, OutOfMemory, Text};
use serde_json::{Map, Value};
use std::alloc::Global;

/// Whether the key is one of these.
fn is_among(allowed: &[&str], key: &str) -> bool
    ensures { result ≡ list_any (λ other. bytes_eq key.now other.now) allowed.now }
{
    allowed.iter().any(|other| key == *other)
}

/// Whether the members have no other keys than these.
fn are_among(allowed: &[&str], members: &Map<String, Value>) -> bool
    ensures { result ≡ list_all (λ key. list_any (λ other. bytes_eq (string_bytes key) other.now) allowed.now) (keys members.now) }
{
    members.keys().all(|key| is_among(allowed, key.as_str()))
}

/// Whether the value is an object with no other keys than these.
pub fn has_only(allowed: &[&str], value: &Value) -> bool
    ensures { result ≡ spec.has_only (map (λ key. key.now) allowed.now) (view value.now) }
{
    match value.as_object() {
        Some(members) => are_among(allowed, members),
        None => false,
    }
}

/// The value as a whole number from 0 up, of 64 bits.
pub fn count_of(value: &Value) -> Option<u64>
    ensures { result ≡ spec.as_count (view value.now) }
{
    value.as_u64()
}

/// The atom that the value is, or nothing where it is none: a whole number of 64 bits with a sign, a text or a truth.
pub fn atom_of(alloc: Global, value: &Value) -> Result<Option<Atom>, OutOfMemory>
    ensures { IfOk result (λ atom. atom ≡ spec.atom_of (view value.now)) }
{
    if let Some(number) = value.as_i64() {
        return Ok(Some(Atom::Int(number)));
    }
    if let Some(text) = value.as_str() {
        let text = Text::of(alloc, text)?;
        return Ok(Some(Atom::Text(text)));
    }
    Ok(value.as_bool().map(Atom::Bool))
}
