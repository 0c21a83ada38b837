//! Whether what is written of an instance is within the limits.

ghost use Rattle.std.specs.Prelude.{◌≡◌, map};
ghost use Rattle.std.specs.List.{list_all};
ghost use Rattle.serde_json.specs.View.{view};
ghost use Rattle.rw_doc.specs.Json.{atom_of};
ghost use Rattle.rw_docspan.specs.Instances as spec;
ghost use Rattle.rw_docspan.specs.Views.{form_lists};

use crate::forms::Form;
use rw_doc::{LONGEST_TEXT, MOST_PARTS};
use serde_json::Value;

/// Whether no object has too many parts.
fn are_few(parts: &[u32]) -> bool
    ensures { result ≡ spec.are_few parts.now }
{
    parts.iter().all(|count| *count <= MOST_PARTS)
}

/// Whether the value is no text that is too long.
fn is_short(value: &Value) -> bool
    ensures { result ≡ spec.is_short_or_none (atom_of (view value.now)) }
{
    match value.as_str() {
        Some(text) => text.len() <= LONGEST_TEXT,
        None => true,
    }
}

/// Whether none of the values is a text that is too long.
fn are_short(values: &[Value]) -> bool
    ensures { result ≡ spec.are_short (map view values.now) }
{
    for value in values {
        if !is_short(value) {
            return false;
        }
    }
    true
}

/// Whether no list has a text that is too long.
fn are_lists_short(lists: &[&[Value]]) -> bool
    ensures { result ≡ list_all spec.are_short (map (λ list. map view list.now) lists.now) }
{
    for list in lists {
        if !are_short(list) {
            return false;
        }
    }
    true
}

/// Whether the numbers of parts and the texts are within the limits.
pub(crate) fn is_in_limits(form: &Form<'_>) -> bool
    ensures { result ≡ spec.is_in_limits (form_lists form.now) }
{
    are_few(form.parts.as_slice()) && are_lists_short(form.cells.as_slice())
}
