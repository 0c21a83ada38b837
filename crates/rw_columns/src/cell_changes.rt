//! A change of all cells.

ghost use Rattle.std.specs.Prelude.{◌≡◌, ◌≢◌, ◌<◌, ◌≤◌, ℕ, Some, length, map, slice_get, slice_index};
ghost use Rattle.std.specs.Vec.{vec_capacity};
ghost use Rattle.rw_schema.specs.RowLists.{list_at};
ghost use Rattle.rw_columns.specs.inner.Carried.{MayRenewAll, AreAllRenewed, MayWriteAll, AreAllWritten};
ghost use Rattle.rw_columns.specs.inner.Written.{MayRenew, IsRenewed, MayWrite, IsListWritten};

use crate::changes::names_at;
use crate::renew::{renew_list, write_list};
use rw_schema::{Atom, AttrEnds};

/// Blanks the cells of the removed names of each attribute, and puts those of the added names on.
pub fn renew_all(
    lists: &mut Vec<Vec<Option<Atom>>>,
    ends: &[AttrEnds],
    removed: &[Vec<u32>],
    added: &[Vec<u32>],
    mut cells: Vec<Vec<Option<Atom>>>,
    next: &[u32],
)
    requires { MayRenewAll ends.now (map (λ list. list.items) removed.now) (map (λ list. list.items) added.now) (map (λ list. list.items) cells.items) next.now (map (λ list. vec_capacity list) lists.old.items) (map (λ list. list.items) lists.old.items) }
    ensures { AreAllRenewed ends.now (map (λ list. list.items) removed.now) (map (λ list. list.items) added.now) (map (λ list. list.items) cells.items) next.now (map (λ list. list.items) lists.old.items) (map (λ list. list.items) lists.new.items) }
{
    while let Some(list) = cells.pop() {
        let place = cells.len();
        let attribute = attribute_at(ends, place);
        renew_at(lists, place, attribute, removed, added, list, next);
    }
}

/// The ends of the attribute at the place.
fn attribute_at(ends: &[AttrEnds], place: usize) -> AttrEnds
    requires { place < length ends.now }
    ensures { slice_get ends.now place ≡ Some result }
{
    ends[place]
}

/// Blanks the cells of the removed names of one attribute, and puts those of the added names on.
fn renew_at(
    lists: &mut Vec<Vec<Option<Atom>>>,
    place: usize,
    attribute: AttrEnds,
    removed: &[Vec<u32>],
    added: &[Vec<u32>],
    cells: Vec<Option<Atom>>,
    next: &[u32],
)
    requires known { place < length lists.old.items }
    requires object { (attribute.object.0 < length removed.now) × (attribute.object.0 < length added.now) × (attribute.object.0 < length next.now) }
    requires fits { MayRenew (list_at (map (λ list. list.items) removed.now) attribute.object.0) (list_at (map (λ list. list.items) added.now) attribute.object.0) cells.items (slice_index next.now attribute.object.0) (list_at (map (λ list. list.items) lists.old.items) place) }
    requires room { slice_index next.now attribute.object.0 ≤ slice_index (map (λ list. vec_capacity list) lists.old.items) place }
    ensures count { length lists.new.items ≡ length lists.old.items }
    ensures here { IsRenewed (list_at (map (λ list. list.items) removed.now) attribute.object.0) (list_at (map (λ list. list.items) added.now) attribute.object.0) cells.items (slice_index next.now attribute.object.0) (list_at (map (λ list. list.items) lists.old.items) place) (list_at (map (λ list. list.items) lists.new.items) place) }
    ensures others { (other : ℕ) → other ≢ place → list_at (map (λ list. list.items) lists.new.items) other ≡ list_at (map (λ list. list.items) lists.old.items) other }
    ensures rooms { (other : ℕ) → other ≢ place → slice_index (map (λ list. vec_capacity list) lists.new.items) other ≡ slice_index (map (λ list. vec_capacity list) lists.old.items) other }
{
    let object = attribute.object.0 as usize;
    let off = names_at(removed, object);
    let on = names_at(added, object);
    renew_list(&mut lists[place], off, on, cells, next[object]);
}

/// Writes the entries of each attribute at their names.
pub fn write_all(lists: &mut Vec<Vec<Option<Atom>>>, mut entries: Vec<Vec<(u32, Option<Atom>)>>)
    requires { MayWriteAll (map (λ list. list.items) entries.items) (map (λ list. list.items) lists.old.items) }
    ensures { AreAllWritten (map (λ list. list.items) entries.items) (map (λ list. list.items) lists.old.items) (map (λ list. list.items) lists.new.items) }
{
    while let Some(list) = entries.pop() {
        let place = entries.len();
        write_at(lists, place, list);
    }
}

/// Writes the entries of one attribute at their names.
fn write_at(lists: &mut Vec<Vec<Option<Atom>>>, place: usize, entries: Vec<(u32, Option<Atom>)>)
    requires known { place < length lists.old.items }
    requires fits { MayWrite entries.items (list_at (map (λ list. list.items) lists.old.items) place) }
    ensures count { length lists.new.items ≡ length lists.old.items }
    ensures here { IsListWritten entries.items (list_at (map (λ list. list.items) lists.old.items) place) (list_at (map (λ list. list.items) lists.new.items) place) }
    ensures others { (other : ℕ) → other ≢ place → list_at (map (λ list. list.items) lists.new.items) other ≡ list_at (map (λ list. list.items) lists.old.items) other }
{
    write_list(&mut lists[place], entries);
}
