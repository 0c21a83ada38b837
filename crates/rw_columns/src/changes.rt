//! A change of all columns.

ghost use Rattle.std.specs.Prelude.{◌≡◌, ◌≢◌, ◌<◌, ℕ, length, map, slice_index};
ghost use Rattle.rw_schema.specs.RowLists.{list_at};
ghost use Rattle.rw_columns.specs.Columned.{column_at};
ghost use Rattle.rw_columns.specs.inner.Carried.{MayChangeAllNames, AreAllNamesChanged, MayChangeAllArrows, AreAllArrowsChanged};
ghost use Rattle.rw_columns.specs.inner.Written.{MayChangeArrow, IsChanged, MayChangeNames, IsChangedNames};

use crate::rewrite::{change_arrow, change_names};
use rw_column::Column;
use rw_schema::ArrowEnds;

/// Carries a change out on the columns of the names of all objects.
pub fn change_all_names(
    columns: &mut Vec<Column>,
    removed: &[Vec<u32>],
    added: &[Vec<u32>],
    next: &[u32],
)
    requires { MayChangeAllNames (map (λ list. list.items) removed.now) (map (λ list. list.items) added.now) next.now columns.old.items }
    ensures { AreAllNamesChanged (map (λ list. list.items) removed.now) (map (λ list. list.items) added.now) next.now columns.old.items columns.new.items }
{
    for place in 0..columns.len() {
        change_names_at(columns, place, removed, added, next);
    }
}

/// Carries a change out on the column of the names of one object.
fn change_names_at(
    columns: &mut Vec<Column>,
    place: usize,
    removed: &[Vec<u32>],
    added: &[Vec<u32>],
    next: &[u32],
)
    requires known { place < length columns.old.items }
    requires removed { place < length removed.now }
    requires added { place < length added.now }
    requires next { place < length next.now }
    requires fits { MayChangeNames (list_at (map (λ list. list.items) removed.now) place) (list_at (map (λ list. list.items) added.now) place) (slice_index next.now place) (column_at columns.old.items place) }
    ensures count { length columns.new.items ≡ length columns.old.items }
    ensures here { IsChangedNames (list_at (map (λ list. list.items) removed.now) place) (list_at (map (λ list. list.items) added.now) place) (slice_index next.now place) (column_at columns.old.items place) (column_at columns.new.items place) }
    ensures others { (other : ℕ) → other ≢ place → column_at columns.new.items other ≡ column_at columns.old.items other }
{
    let removed = names_at(removed, place);
    let added = names_at(added, place);
    change_names(&mut columns[place], removed, added, next[place]);
}

/// The list at the place.
pub fn names_at(lists: &[Vec<u32>], place: usize) -> &[u32]
    requires { place < length lists.now }
    ensures { result.now ≡ list_at (map (λ list. list.items) lists.now) place }
{
    lists[place].as_slice()
}

/// Carries a change out on the columns of all arrows.
pub fn change_all_arrows(
    columns: &mut Vec<Column>,
    ends: &[ArrowEnds],
    removed: &[Vec<u32>],
    mut rows: Vec<Vec<(u32, u32)>>,
    added: &[Vec<u32>],
    images: &[Vec<u32>],
    next: &[u32],
)
    requires { MayChangeAllArrows ends.now (map (λ list. list.items) removed.now) (map (λ list. list.items) rows.items) (map (λ list. list.items) added.now) (map (λ list. list.items) images.now) next.now columns.old.items }
    ensures { AreAllArrowsChanged ends.now (map (λ list. list.items) removed.now) (map (λ list. list.items) rows.items) (map (λ list. list.items) added.now) (map (λ list. list.items) images.now) next.now columns.old.items columns.new.items }
{
    while let Some(list) = rows.pop() {
        let place = rows.len();
        change_arrow_at(
            columns,
            place,
            ends[place],
            removed,
            list,
            added,
            images,
            next,
        );
    }
}

/// Carries a change out on the column of one arrow.
fn change_arrow_at(
    columns: &mut Vec<Column>,
    place: usize,
    arrow: ArrowEnds,
    removed: &[Vec<u32>],
    rows: Vec<(u32, u32)>,
    added: &[Vec<u32>],
    images: &[Vec<u32>],
    next: &[u32],
)
    requires known { place < length columns.old.items }
    requires images { place < length images.now }
    requires source { (arrow.source.0 < length removed.now) × (arrow.source.0 < length added.now) × (arrow.source.0 < length next.now) }
    requires target { arrow.target.0 < length next.now }
    requires fits { MayChangeArrow (list_at (map (λ list. list.items) removed.now) arrow.source.0) rows.items (list_at (map (λ list. list.items) added.now) arrow.source.0) (list_at (map (λ list. list.items) images.now) place) (slice_index next.now arrow.source.0) (slice_index next.now arrow.target.0) (column_at columns.old.items place) }
    ensures count { length columns.new.items ≡ length columns.old.items }
    ensures here { IsChanged (list_at (map (λ list. list.items) removed.now) arrow.source.0) rows.items (list_at (map (λ list. list.items) added.now) arrow.source.0) (list_at (map (λ list. list.items) images.now) place) (slice_index next.now arrow.source.0) (slice_index next.now arrow.target.0) (column_at columns.old.items place) (column_at columns.new.items place) }
    ensures others { (other : ℕ) → other ≢ place → column_at columns.new.items other ≡ column_at columns.old.items other }
{
    let source = arrow.source.0 as usize;
    let off = names_at(removed, source);
    let on = names_at(added, source);
    let images = names_at(images, place);
    let sources = next[source];
    let targets = next[arrow.target.0 as usize];
    change_arrow(&mut columns[place], off, rows, on, images, sources, targets);
}
