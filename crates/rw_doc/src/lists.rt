//! Lists of JSON values.

ghost use Rattle.std.specs.Prelude.{◌≡◌, ◌≤◌, IfOk, length, map, option_map};
ghost use Rattle.serde_json.specs.View.{view};
ghost use Rattle.rw_doc.specs.Gives.{Gives};
ghost use Rattle.rw_doc.specs.Instances as instances;
ghost use Rattle.rw_doc.specs.Json.{as_list};
ghost use Rattle.rw_doc.specs.Schemas as schemas;

use crate::faults::refused_of;
use crate::{DocFault, ReadDocEnd};
use rw_schema::Section;
use serde_json::Value;

/// The items of an array.
pub fn items_of(value: &Value) -> Option<&[Value]>
    ensures { option_map (λ items. map view items.now) result ≡ as_list (view value.now) }
{
    match value.as_array() {
        Some(items) => Some(items.as_slice()),
        None => None,
    }
}

/// A section's list of at most so many items.
pub(crate) fn read_list(
    section: Section,
    most: usize,
    value: &Value,
) -> Result<&[Value], ReadDocEnd>
    ensures gives { Gives (λ items. map view items.now) result (schemas.read_list section most (view value.now)) }
    ensures few { IfOk result (λ items. length items.now ≤ most) }
{
    let Some(items) = items_of(value) else {
        return Err(refused_of(2, section));
    };
    if items.len() <= most {
        Ok(items)
    } else {
        Err(refused_of(4, section))
    }
}

/// The items of a section that may be absent.
pub fn read_list_or_none(
    section: Section,
    most: usize,
    value: Option<&Value>,
) -> Result<&[Value], ReadDocEnd>
    ensures gives { Gives (λ items. map view items.now) result (schemas.read_list_or_none section most (option_map (λ value. view value.now) value.entry)) }
    ensures few { IfOk result (λ items. length items.now ≤ most) }
{
    match value {
        Some(value) => read_list(section, most, value),
        None => Ok(&[]),
    }
}

/// As many items as this, or the fault.
pub(crate) fn with_length(
    fault: DocFault,
    count: usize,
    items: Option<&[Value]>,
) -> Result<&[Value], ReadDocEnd>
    ensures gives { Gives (λ items. map view items.now) result (instances.with_length fault count (option_map (λ items. map view items.now) items.entry)) }
    ensures long { IfOk result (λ items. length items.now ≡ count) }
{
    match items {
        Some(items) if items.len() == count => Ok(items),
        _ => Err(ReadDocEnd::Refused(fault)),
    }
}
