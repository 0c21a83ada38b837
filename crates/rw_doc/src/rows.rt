//! The images of an instance's parts.

ghost use Rattle.std.specs.Prelude.{◌≡◌, ◌<◌, ◌≤◌, IfOk, length, map, slice_index};
ghost use Rattle.std.specs.List.{All};
ghost use Rattle.serde_json.specs.View.{view};
ghost use Rattle.rw_schema.specs.Limits.{most_arrows};
ghost use Rattle.rw_schema.specs.Presentation.{signature_of};
ghost use Rattle.rw_schema.specs.Signature.{source_of};
ghost use Rattle.rw_spec.specs.Ends.{target_of};
ghost use Rattle.rw_doc.specs.Chain.{each_in};
ghost use Rattle.rw_doc.specs.Gives.{Gives};
ghost use Rattle.rw_doc.specs.Instances as spec;
ghost use Rattle.rw_doc.specs.Limits.{most_parts};

use crate::ReadDocEnd;
use crate::faults::{fault_at, fault_of, refused_at};
use crate::json::count_of;
use crate::lists::{items_of, with_length};
use rw_schema::{ArrowId, Schema, Section};
use serde_json::Value;
use std::alloc::Global;

/// The number of the parts of the arrow's source.
fn source_parts(schema: &Schema, parts: &[u32], arrow: ArrowId) -> u32
    requires arrow { arrow.0 < length schema.now.arrows }
    requires parts { length parts.now ≡ length schema.now.objects }
    ensures { result ≡ slice_index parts.now (source_of (signature_of schema.now) arrow.0) }
{
    parts[schema.arrow(arrow).source.0 as usize]
}

/// The number of the parts of the arrow's target.
fn target_parts(schema: &Schema, parts: &[u32], arrow: ArrowId) -> u32
    requires arrow { arrow.0 < length schema.now.arrows }
    requires parts { length parts.now ≡ length schema.now.objects }
    ensures { result ≡ slice_index parts.now (target_of (signature_of schema.now) arrow.0) }
{
    parts[schema.arrow(arrow).target.0 as usize]
}

/// The image that the value is, one of so many parts.
fn read_image(targets: u32, arrow: u32, position: u32, value: &Value) -> Result<u32, ReadDocEnd>
    ensures { Gives (λ image. image) result (spec.read_image targets arrow position (view value.now)) }
{
    let Some(image) = count_of(value) else {
        return Err(refused_at(2, Section::Rows, arrow, position));
    };
    if image < targets as u64 {
        Ok(image as u32)
    } else {
        Err(refused_at(8, Section::Rows, arrow, position))
    }
}

/// The images that the values are.
fn images_of(
    alloc: Global,
    targets: u32,
    arrow: u32,
    items: &[Value],
) -> Result<Vec<u32>, ReadDocEnd>
    requires { length items.now ≤ most_parts }
    ensures { Gives (λ images. images.items) result (each_in (spec.read_image targets arrow) 0 (map view items.now)) }
{
    let mut images = Vec::new(alloc);
    for (position, item) in items.iter().enumerate() {
        let image = read_image(targets, arrow, position as u32, item)?;
        images.push(image)?;
    }
    Ok(images)
}

/// The images under the arrow, one for each part of its source.
fn read_row(
    alloc: Global,
    schema: &Schema,
    parts: &[u32],
    arrow: ArrowId,
    value: &Value,
) -> Result<Vec<u32>, ReadDocEnd>
    requires arrow { arrow.0 < length schema.now.arrows }
    requires parts { length parts.now ≡ length schema.now.objects }
    requires few { All (λ count. count ≤ most_parts) parts.now }
    ensures { Gives (λ images. images.items) result (spec.read_row (signature_of schema.now) parts.now arrow.0 (view value.now)) }
{
    let count = source_parts(schema, parts, arrow);
    let targets = target_parts(schema, parts, arrow);
    let place = arrow.0 as u32;
    let fault = fault_at(2, Section::Rows, place, 0);
    let items = with_length(fault, count as usize, items_of(value))?;
    images_of(alloc, targets, place, items)
}

/// The list of images that each value is.
fn row_lists(
    alloc: Global,
    schema: &Schema,
    parts: &[u32],
    items: &[Value],
) -> Result<Vec<Vec<u32>>, ReadDocEnd>
    requires items { length items.now ≡ length schema.now.arrows }
    requires arrows { length schema.now.arrows ≤ most_arrows }
    requires parts { length parts.now ≡ length schema.now.objects }
    requires few { All (λ count. count ≤ most_parts) parts.now }
    ensures { Gives (λ rows. map (λ row. row.items) rows.items) result (each_in (spec.read_row (signature_of schema.now) parts.now) 0 (map view items.now)) }
{
    let mut rows = Vec::new(alloc);
    for (arrow, item) in items.iter().enumerate() {
        let row = read_row(alloc, schema, parts, ArrowId(arrow as u16), item)?;
        rows.push(row)?;
    }
    Ok(rows)
}

/// Of each arrow the images of the parts of its source.
pub(crate) fn read_rows(
    alloc: Global,
    schema: &Schema,
    parts: &[u32],
    value: &Value,
) -> Result<Vec<Vec<u32>>, ReadDocEnd>
    requires parts { length parts.now ≡ length schema.now.objects }
    requires few { All (λ count. count ≤ most_parts) parts.now }
    ensures { Gives (λ rows. map (λ row. row.items) rows.items) result (spec.read_rows (signature_of schema.now) parts.now (view value.now)) }
{
    let fault = fault_of(2, Section::Rows);
    let items = with_length(fault, schema.arrows(), items_of(value))?;
    row_lists(alloc, schema, parts, items)
}
