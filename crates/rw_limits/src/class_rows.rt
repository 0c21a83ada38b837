//! Where arrows lead from classes.

ghost use Rattle.std.specs.Prelude.{◌≡◌, ◌<◌, ◌≤◌, ◌+◌, ◌^◌, ℕ, All, IfOk, Some, length, map, slice_get, true};
ghost use Rattle.rw_schema.specs.declared.signature.ArrowEnds.{ArrowEnds};
ghost use Rattle.rw_schema.specs.First.{map_in};
ghost use Rattle.rw_schema.specs.Presentation.{ends_of_arrow};
ghost use Rattle.rw_spec.specs.Ascending.{ascends};
ghost use Rattle.rw_limits.specs.inner.Spans.{value_place, class_row, class_row_at, HasClassValues};
ghost use Rattle.rw_classes.specs.ClassLists.{number_lists, first_lists};

use rw_classes::{Classes, firsts_at, numbers_at, spot_of};
use rw_schema::{ArrowDef, ArrowId, OutOfMemory, Rows};
use std::alloc::Global;

/// Of each arrow the class to which it leads from each class of its source: that of the value of the class's first part.
pub fn class_rows(
    alloc: Global,
    arrows: &[ArrowDef],
    left: &Rows,
    right: &Rows,
    classes: &[Classes],
) -> Result<Vec<Vec<u32>>, OutOfMemory>
    requires few { length arrows.now ≤ 256 }
    requires values { (a : ℕ) (ends : ArrowEnds) → slice_get (map ends_of_arrow arrows.now) a ≡ Some ends
        → HasClassValues left.now right.now (number_lists classes.now) (first_lists classes.now) a ends }
    ensures { IfOk result (λ rows. map (λ row. row.items) rows.items
        ≡ map_in (class_row_at left.now right.now (number_lists classes.now) (first_lists classes.now)) 0 (map ends_of_arrow arrows.now)) }
{
    let mut rows = Vec::new(alloc);
    for (place, arrow) in arrows.iter().enumerate() {
        rows.push(row_along(alloc, ArrowId(place as u16), arrow, left, right, classes)?)?;
    }
    Ok(rows)
}

/// The class to which the arrow leads from each class of its source.
fn row_along(
    alloc: Global,
    place: ArrowId,
    arrow: &ArrowDef,
    left: &Rows,
    right: &Rows,
    classes: &[Classes],
) -> Result<Vec<u32>, OutOfMemory>
    requires { HasClassValues left.now right.now (number_lists classes.now) (first_lists classes.now) place.0 (ends_of_arrow arrow.now) }
    ensures { IfOk result (λ row. row.items ≡ class_row_at left.now right.now (number_lists classes.now) (first_lists classes.now) place.0 (ends_of_arrow arrow.now)) }
{
    row_of(
        alloc,
        left.row(place),
        right.row(place),
        left.names(arrow.target),
        right.names(arrow.target),
        numbers_at(classes, arrow.target),
        firsts_at(classes, arrow.source),
    )
}

/// Of each class, given by its first part, the class of the value of that part.
fn row_of(
    alloc: Global,
    left_row: &[u32],
    right_row: &[u32],
    left_targets: &[u32],
    right_targets: &[u32],
    numbers: &[u32],
    firsts: &[u32],
) -> Result<Vec<u32>, OutOfMemory>
    requires left { ascends left_targets.now ≡ true }
    requires right { ascends right_targets.now ≡ true }
    requires few { length left_targets.now + length right_targets.now < 2 ^ 32 }
    requires parts { All (λ e. e < length left_row.now + length right_row.now) firsts.now }
    requires places { All (λ e. value_place left_row.now right_row.now left_targets.now right_targets.now e < length numbers.now) firsts.now }
    ensures { IfOk result (λ row. row.items ≡ class_row left_row.now right_row.now left_targets.now right_targets.now numbers.now firsts.now) }
{
    let mut row = Vec::new(alloc);
    for first in firsts {
        let place = place_of_value(left_row, right_row, left_targets, right_targets, *first);
        row.push(numbers[place])?;
    }
    Ok(row)
}

/// The place, among the names of both sides of the target, of the value of a part of either side of the source.
fn place_of_value(
    left_row: &[u32],
    right_row: &[u32],
    left_targets: &[u32],
    right_targets: &[u32],
    part: u32,
) -> usize
    requires left { ascends left_targets.now ≡ true }
    requires right { ascends right_targets.now ≡ true }
    requires few { length left_targets.now + length right_targets.now < 2 ^ 32 }
    requires part { part < length left_row.now + length right_row.now }
    ensures { result ≡ value_place left_row.now right_row.now left_targets.now right_targets.now part }
{
    let part = part as usize;
    if part < left_row.len() {
        spot_of(left_targets, left_row[part])
    } else {
        left_targets.len() + spot_of(right_targets, right_row[part - left_row.len()])
    }
}
