//! The numbers of an instance's parts, and their names.

ghost use Rattle.std.specs.Prelude.{◌≡◌, ◌≤◌, IfOk, length, map, replicate};
ghost use Rattle.std.specs.List.{range_with_len};
ghost use Rattle.serde_json.specs.View.{view};
ghost use Rattle.rw_schema.specs.Limits.{most_objects};
ghost use Rattle.rw_schema.specs.Presentation.{signature_of};
ghost use Rattle.rw_doc.specs.Chain.{each_in};
ghost use Rattle.rw_doc.specs.Gives.{Gives};
ghost use Rattle.rw_doc.specs.Instances as spec;

use crate::ReadDocEnd;
use crate::faults::{fault_of, refused_at};
use crate::json::count_of;
use crate::limits::MOST_PARTS;
use crate::lists::{items_of, with_length};
use rw_schema::{OutOfMemory, Schema, Section};
use serde_json::Value;
use std::alloc::Global;

/// The number of an object's parts.
fn read_part_count(object: u32, value: &Value) -> Result<u32, ReadDocEnd>
    ensures { Gives (λ count. count) result (spec.read_part_count object (view value.now)) }
{
    let Some(count) = count_of(value) else {
        return Err(refused_at(2, Section::Parts, object, 0));
    };
    if count <= MOST_PARTS as u64 {
        Ok(count as u32)
    } else {
        Err(refused_at(4, Section::Parts, object, 0))
    }
}

/// The number that each value is.
fn part_counts(alloc: Global, items: &[Value]) -> Result<Vec<u32>, ReadDocEnd>
    requires { length items.now ≤ most_objects }
    ensures { Gives (λ counts. counts.items) result (each_in spec.read_part_count 0 (map view items.now)) }
{
    let mut counts = Vec::new(alloc);
    for (object, item) in items.iter().enumerate() {
        let count = read_part_count(object as u32, item)?;
        counts.push(count)?;
    }
    Ok(counts)
}

/// The numbers of the parts of the objects.
pub(crate) fn read_parts(
    alloc: Global,
    schema: &Schema,
    value: &Value,
) -> Result<Vec<u32>, ReadDocEnd>
    ensures { Gives (λ parts. parts.items) result (spec.read_parts (signature_of schema.now) (view value.now)) }
{
    let fault = fault_of(2, Section::Parts);
    let items = with_length(fault, schema.objects(), items_of(value))?;
    part_counts(alloc, items)
}

/// So many times no part.
pub(crate) fn zeros(alloc: Global, count: usize) -> Result<Vec<u32>, OutOfMemory>
    ensures { IfOk result (λ counts. counts.items ≡ replicate count 0) }
{
    Ok(Vec::from_elem(alloc, 0, count)?)
}

/// The names of so many parts.
fn names_below(alloc: Global, count: u32) -> Result<Vec<u32>, OutOfMemory>
    ensures { IfOk result (λ names. names.items ≡ range_with_len 0 count) }
{
    let mut names = Vec::new(alloc);
    for name in 0..count {
        names.push(name)?;
    }
    Ok(names)
}

/// Of each object the names of its parts.
pub(crate) fn names_of(alloc: Global, parts: &[u32]) -> Result<Vec<Vec<u32>>, OutOfMemory>
    ensures { IfOk result (λ names. map (λ list. list.items) names.items ≡ map (range_with_len 0) parts.now) }
{
    let mut names = Vec::new(alloc);
    for count in parts {
        let list = names_below(alloc, *count)?;
        names.push(list)?;
    }
    Ok(names)
}
