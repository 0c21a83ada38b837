//! Whether the images that are written of an instance are there.

ghost use Rattle.std.specs.Prelude.{◌≡◌, ◌<◌, true, length, map, nat_lt};
ghost use Rattle.std.specs.List.{list_all};
ghost use Rattle.rw_schema.specs.First.{all_in};
ghost use Rattle.rw_schema.specs.Presentation.{ends_of_arrow};
ghost use Rattle.rw_schema.specs.SchemaFaults.{has_ends};
ghost use Rattle.rw_docspan.specs.Instances as spec;

use rw_schema::ArrowDef;

/// Whether each image is one of so many parts.
fn are_below(images: &[u32], count: u32) -> bool
    ensures { result ≡ list_all (λ image. nat_lt image count) images.now }
{
    images.iter().all(|image| *image < count)
}

/// Whether each image of the row at the place is a part of the arrow's target.
fn has_images(parts: &[u32], rows: &[Vec<u32>], place: usize, arrow: &ArrowDef) -> bool
    requires target { arrow.now.target.0 < length parts.now }
    requires row { place < length rows.now }
    ensures { result ≡ spec.has_images parts.now (map (λ row. row.items) rows.now) place (ends_of_arrow arrow.now) }
{
    are_below(rows[place].as_slice(), parts[arrow.target.0 as usize])
}

/// Whether each image is a part of its arrow's target.
pub(crate) fn have_images(parts: &[u32], rows: &[Vec<u32>], arrows: &[ArrowDef]) -> bool
    requires ends { list_all (has_ends (length parts.now)) arrows.now ≡ true }
    requires rows { length rows.now ≡ length arrows.now }
    ensures { result ≡ all_in (spec.has_images parts.now (map (λ row. row.items) rows.now)) 0 (map ends_of_arrow arrows.now) }
{
    for (place, arrow) in arrows.iter().enumerate() {
        if !has_images(parts, rows, place, arrow) {
            return false;
        }
    }
    true
}
