//! Pullbacks.

ghost use Rattle.std.specs.Prelude.{◌≡◌, ◌≤◌, All, IfOk, length, map};
ghost use Rattle.rw_schema.specs.Presentation.{signature_of};
ghost use Rattle.rw_spec.specs.Tabled.{IsOver, instance_of_table};
ghost use Rattle.rw_map.specs.Homs.{IsHom};
ghost use Rattle.rw_limits.specs.inner.PairLists.{IsLexicographic, lists_of_pairs};
ghost use Rattle.rw_limits.specs.Pullbacks.{PullsBack, cospan_of, most_pairs};
ghost use Rattle.rw_limits.specs.declared.limit.PullEnd.TheVariants.{OutOfMemory};

use crate::cospan::{RowCospan, first_too_large, object_pairs};
use crate::pair_cells::pair_cells;
use crate::pair_lists::{left_lists, pair_counts, pair_names, right_lists};
use crate::pair_rows::pair_rows;
use rw_schema::{ObjectId, OutOfMemory, PartMap, Rows, Schema};
use rw_table::Table;
use std::alloc::Global;
use thiserror::Error;

/// A pullback with its two projections. Its parts are the pairs of parts with one image in the base, in lexicographic
/// order, numbered from 0; `left` and `right` give the two parts of each pair. A cell is an atom exactly where both
/// parts have that atom.
#[derive(Drop)]
pub struct PullbackResult {
    pub table: Table,
    pub left: PartMap,
    pub right: PartMap,
}

/// Why there is no pullback.
#[derive(Clone, Copy, Debug, PartialEq, Eq, Error)]
pub enum PullEnd {
    /// The object has more than 16,777,216 pairs.
    #[error("an object has too many pairs")]
    TooLarge { object: ObjectId },
    #[error("out of memory")]
    OutOfMemory,
}

impl From<OutOfMemory> for PullEnd {
    ghost from_gives = { λ _ end. end ≡ OutOfMemory };

    fn from(_error: OutOfMemory) -> PullEnd {
        PullEnd::OutOfMemory
    }
}

/// The pullback of two homomorphisms into one base. The pairs of all objects are counted before any is made, so that an
/// answer TooLarge takes time near linear in the parts; else the time is near linear in parts and pairs.
///
/// Mac Lane, "Categories for the Working Mathematician" (1971), has pullbacks and that those of functors into sets are
/// taken object by object.
pub fn pullback(
    alloc: Global,
    schema: &Schema,
    left: &Table,
    right: &Table,
    base: &Table,
    f: &PartMap,
    g: &PartMap,
) -> Result<PullbackResult, PullEnd>
    requires left { IsOver schema.now left.now }
    requires right { IsOver schema.now right.now }
    requires base { IsOver schema.now base.now }
    requires f { IsHom (signature_of schema.now) (instance_of_table left.now) (instance_of_table base.now) f.now }
    requires g { IsHom (signature_of schema.now) (instance_of_table right.now) (instance_of_table base.now) g.now }
    ensures { PullsBack (signature_of schema.now) (cospan_of left.now right.now base.now f.now g.now) result }
{
    let cospan = RowCospan {
        schema,
        left: left.rows(),
        right: right.rows(),
        base: base.rows(),
        left_map: f,
        right_map: g,
    };
    if let Some(object) = first_too_large(alloc, &cospan)? {
        return Err(PullEnd::TooLarge { object });
    }
    let pairs = object_pairs(alloc, &cospan)?;
    let rows = pullback_rows(alloc, schema, left, right, pairs.as_slice())?;
    let table = Table::of_instance(alloc, schema, rows)?;
    let left_parts = left_lists(alloc, pairs.as_slice())?;
    let right_parts = right_lists(alloc, pairs.as_slice())?;
    Ok(PullbackResult {
        table,
        left: PartMap::from_lists(left_parts),
        right: PartMap::from_lists(right_parts),
    })
}

/// The lists of the pullback with these pairs of each object.
fn pullback_rows(
    alloc: Global,
    schema: &Schema,
    left: &Table,
    right: &Table,
    pairs: &[Vec<(u32, u32)>],
) -> Result<Rows, OutOfMemory>
    requires left { IsOver schema.now left.now }
    requires right { IsOver schema.now right.now }
    requires objects { length pairs.now ≡ length schema.now.objects }
    requires ascend { All (λ list. IsLexicographic list.items) pairs.now }
    requires few { All (λ list. length list.items ≤ most_pairs) pairs.now }
    ensures { IfOk result (λ rows. rows
        ≡ lists_of_pairs (signature_of schema.now) (instance_of_table left.now) (instance_of_table right.now) (map (λ list. list.items) pairs.now)) }
{
    let names = pair_names(alloc, pairs)?;
    let rows = pair_rows(alloc, schema, left, right, pairs)?;
    let cells = pair_cells(alloc, schema, left, right, pairs)?;
    let counts = pair_counts(alloc, pairs)?;
    Ok(Rows::from_lists(names, rows, cells, counts))
}
