//! Where arrows lead from pairs: to the pairs of the values.

ghost use Rattle.std.specs.Prelude.{◌≡◌, ◌<◌, ◌≤◌, All, IfOk, length, map};
ghost use Rattle.rw_schema.specs.First.{map_in};
ghost use Rattle.rw_schema.specs.Presentation.{ends_of_arrow};
ghost use Rattle.rw_spec.specs.Tabled.{instance_of_table};
ghost use Rattle.rw_limits.specs.inner.PairLists.{IsLexicographic, value_of_pair, row_of_pairs};
ghost use Rattle.rw_limits.specs.Pairs.{place_of};
ghost use Rattle.rw_limits.specs.Pullbacks.{most_pairs};

use crate::pairs::pairs_of;
use rw_map::value_of;
use rw_schema::{ArrowDef, ArrowId, OutOfMemory, Schema};
use rw_table::Table;
use std::alloc::Global;

/// The row of each arrow of the schema, where these are the pairs of each object.
pub fn pair_rows(
    alloc: Global,
    schema: &Schema,
    left: &Table,
    right: &Table,
    pairs: &[Vec<(u32, u32)>],
) -> Result<Vec<Vec<u32>>, OutOfMemory>
    requires left { length left.now.signature.arrows ≡ length schema.now.arrows }
    requires right { length right.now.signature.arrows ≡ length schema.now.arrows }
    requires objects { length pairs.now ≡ length schema.now.objects }
    requires ascend { All (λ list. IsLexicographic list.items) pairs.now }
    requires few { All (λ list. length list.items ≤ most_pairs) pairs.now }
    ensures { IfOk result (λ rows. map (λ list. list.items) rows.items
        ≡ map_in (row_of_pairs (instance_of_table left.now) (instance_of_table right.now) (map (λ list. list.items) pairs.now)) 0 (map ends_of_arrow schema.now.arrows)) }
{
    let mut rows = Vec::new(alloc);
    let arrows = schema.arrow_list();
    for (place, arrow) in arrows.iter().enumerate() {
        rows.push(arrow_row(alloc, left, right, ArrowId(place as u16), arrow, pairs)?)?;
    }
    Ok(rows)
}

/// The row of an arrow.
fn arrow_row(
    alloc: Global,
    left: &Table,
    right: &Table,
    place: ArrowId,
    arrow: &ArrowDef,
    pairs: &[Vec<(u32, u32)>],
) -> Result<Vec<u32>, OutOfMemory>
    requires left { place.0 < length left.now.signature.arrows }
    requires right { place.0 < length right.now.signature.arrows }
    requires source { arrow.now.source.0 < length pairs.now }
    requires target { arrow.now.target.0 < length pairs.now }
    requires ascend { All (λ list. IsLexicographic list.items) pairs.now }
    requires few { All (λ list. length list.items ≤ most_pairs) pairs.now }
    ensures { IfOk result (λ row. row.items ≡ row_of_pairs (instance_of_table left.now) (instance_of_table right.now) (map (λ list. list.items) pairs.now) place.0 (ends_of_arrow arrow.now)) }
{
    let from = pairs_of(pairs, arrow.source);
    let to = pairs_of(pairs, arrow.target);
    pair_row(alloc, left, right, place, from, to)
}

/// Where the arrow leads from each pair: the place of the pair of the values among the target's pairs.
fn pair_row(
    alloc: Global,
    left: &Table,
    right: &Table,
    arrow: ArrowId,
    from: &[(u32, u32)],
    to: &[(u32, u32)],
) -> Result<Vec<u32>, OutOfMemory>
    requires left { arrow.0 < length left.now.signature.arrows }
    requires right { arrow.0 < length right.now.signature.arrows }
    requires ascend { IsLexicographic to.now }
    requires few { length to.now ≤ most_pairs }
    ensures { IfOk result (λ row. row.items ≡ map (value_of_pair (instance_of_table left.now) (instance_of_table right.now) arrow.0 to.now) from.now) }
{
    let mut row = Vec::new(alloc);
    for pair in from {
        let image = (
            value_of(left, arrow, pair.0),
            value_of(right, arrow, pair.1),
        );
        row.push(place_of_pair(to, image))?;
    }
    Ok(row)
}

/// The place of the pair among pairs in lexicographic order, or their number where it is none of them.
fn place_of_pair(pairs: &[(u32, u32)], pair: (u32, u32)) -> u32
    requires ascend { IsLexicographic pairs.now }
    requires few { length pairs.now ≤ most_pairs }
    ensures { result ≡ place_of pairs.now pair.0 pair.1 }
{
    match pairs.binary_search(&pair) {
        Ok(place) => place as u32,
        Err(_) => pairs.len() as u32,
    }
}
