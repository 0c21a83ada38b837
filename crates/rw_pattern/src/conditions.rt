//! Whether lists have the shape of a pattern, and few parts.

ghost use Rattle.std.specs.Prelude.{◌≡◌, ◌==◌, ◌≤◌, [], true, length, map, nat_le, sum};
ghost use Rattle.std.specs.Bool.{OnTrue};
ghost use Rattle.std.specs.List.{list_all};
ghost use Rattle.rw_schema.specs.First.{all_in};
ghost use Rattle.rw_schema.specs.Presentation.{signature_of, ends_of_arrow};
ghost use Rattle.rw_schema.specs.SchemaFaults.{has_ends};
ghost use Rattle.rw_pattern.specs.PatternFaults.{has_shape, has_length};

use crate::pattern::MOST_PARTS;
use rw_schema::{ArrowDef, Schema};

/// Whether there is one size for each object, and one row of the right length for each arrow. Cells have no part in it.
pub fn are_shaped(schema: &Schema, sizes: &[u32], rows: &[Vec<u32>]) -> bool
    ensures shape { result ≡ has_shape (signature_of schema.now) (record { sizes = sizes.now; rows = map (λ row. row.items) rows.now; cells = []; holders = [] }) }
    ensures objects { OnTrue result (length sizes.now ≤ 64) }
{
    sizes.len() == schema.objects()
        && rows.len() == schema.arrows()
        && have_lengths(schema.arrow_list(), sizes, rows)
}

/// Whether there are at most 64 parts in all.
pub fn are_few(sizes: &[u32]) -> bool
    ensures { result ≡ nat_le (sum sizes.now) 64 }
{
    let mut left = MOST_PARTS;
    for size in sizes {
        if *size > left {
            return false;
        }
        left -= *size;
    }
    true
}

/// Whether each row has one image for each part of the arrow's source.
fn have_lengths(arrows: &[ArrowDef], sizes: &[u32], rows: &[Vec<u32>]) -> bool
    requires rows { length rows.now ≡ length arrows.now }
    requires ends { list_all (has_ends (length sizes.now)) arrows.now ≡ true }
    ensures { result ≡ all_in (has_length (record { sizes = sizes.now; rows = map (λ row. row.items) rows.now; cells = []; holders = [] })) 0 (map ends_of_arrow arrows.now) }
{
    for (number, arrow) in arrows.iter().enumerate() {
        if !has_images(rows[number].as_slice(), sizes[arrow.source.0 as usize]) {
            return false;
        }
    }
    true
}

/// Whether the row has as many images as the size.
fn has_images(row: &[u32], size: u32) -> bool
    ensures { result ≡ (length row.now == size) }
{
    row.len() == size as usize
}
