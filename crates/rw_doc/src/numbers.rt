//! Numbers of parts as a document has them.

ghost use Rattle.std.specs.Prelude.{◌≡◌, IfOk, codes, map, option_and_then, option_map};
ghost use Rattle.serde_json.specs.Find.{get};
ghost use Rattle.serde_json.specs.View.{view};
ghost use Rattle.rw_doc.specs.Chain.{all_some};
ghost use Rattle.rw_doc.specs.Numbers as spec;

use crate::json::count_of;
use crate::lists::items_of;
use rw_schema::OutOfMemory;
use serde_json::Value;
use std::alloc::Global;

/// The count that the value is; one past 32 bits is as good as the greatest of 32 bits.
pub fn as_number(value: &Value) -> Option<u32>
    ensures { result ≡ spec.as_number (view value.now) }
{
    let count = count_of(value)?;
    Some(count.min(u64::from(u32::MAX)) as u32)
}

/// A number of each item.
fn numbers_of(alloc: Global, items: &[Value]) -> Result<Option<Vec<u32>>, OutOfMemory>
    ensures { IfOk result (λ numbers. option_map (λ numbers. numbers.items) numbers ≡ all_some spec.as_number (map view items.now)) }
{
    let mut numbers = Vec::new(alloc);
    for item in items {
        let Some(number) = as_number(item) else {
            return Ok(None);
        };
        numbers.push(number)?;
    }
    Ok(Some(numbers))
}

/// The numbers that the value lists.
pub fn as_numbers(alloc: Global, value: &Value) -> Result<Option<Vec<u32>>, OutOfMemory>
    ensures { IfOk result (λ numbers. option_map (λ numbers. numbers.items) numbers ≡ spec.as_numbers (view value.now)) }
{
    match items_of(value) {
        Some(items) => numbers_of(alloc, items),
        None => Ok(None),
    }
}

/// A list of numbers of each item.
fn number_lists_of(alloc: Global, items: &[Value]) -> Result<Option<Vec<Vec<u32>>>, OutOfMemory>
    ensures { IfOk result (λ lists. option_map (λ lists. map (λ list. list.items) lists.items) lists ≡ all_some spec.as_numbers (map view items.now)) }
{
    let mut lists = Vec::new(alloc);
    for item in items {
        let Some(numbers) = as_numbers(alloc, item)? else {
            return Ok(None);
        };
        lists.push(numbers)?;
    }
    Ok(Some(lists))
}

/// The lists of numbers that the value lists.
pub fn as_number_lists(alloc: Global, value: &Value) -> Result<Option<Vec<Vec<u32>>>, OutOfMemory>
    ensures { IfOk result (λ lists. option_map (λ lists. map (λ list. list.items) lists.items) lists ≡ spec.as_number_lists (view value.now)) }
{
    match items_of(value) {
        Some(items) => number_lists_of(alloc, items),
        None => Ok(None),
    }
}

/// The numbers of parts that are written in the value.
pub fn parts_in(alloc: Global, value: &Value) -> Result<Option<Vec<u32>>, OutOfMemory>
    ensures { IfOk result (λ parts. option_map (λ parts. parts.items) parts ≡ option_and_then spec.as_numbers (get (codes "parts") (view value.now))) }
{
    match value.get("parts") {
        Some(parts) => as_numbers(alloc, parts),
        None => Ok(None),
    }
}

/// The images that are written in the value.
pub fn rows_in(alloc: Global, value: &Value) -> Result<Option<Vec<Vec<u32>>>, OutOfMemory>
    ensures { IfOk result (λ rows. option_map (λ rows. map (λ row. row.items) rows.items) rows ≡ option_and_then spec.as_number_lists (get (codes "rows") (view value.now))) }
{
    match value.get("rows") {
        Some(rows) => as_number_lists(alloc, rows),
        None => Ok(None),
    }
}
