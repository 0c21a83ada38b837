//! A change of one list of cells.

ghost use Rattle.std.specs.Prelude.{◌≡◌, ◌<◌, ◌≤◌, ℕ, None, length, slice_index, slice_index_or, slice_set, true};
ghost use Rattle.std.specs.Vec.{vec_capacity};
ghost use Rattle.rw_spec.specs.Ascending.{ascends};
ghost use Rattle.rw_columns.specs.inner.Written.{cell_at, AreCellsWritten, MayRenew, IsRenewed, MayWrite, IsListWritten};

use rw_schema::Atom;

/// Blanks the cells of the removed names, so that their texts are let go, and puts the cells of the added names on.
pub fn renew_list(
    list: &mut Vec<Option<Atom>>,
    removed: &[u32],
    added: &[u32],
    cells: Vec<Option<Atom>>,
    places: u32,
)
    requires fits { MayRenew removed.now added.now cells.items places list.old.items }
    requires room { places ≤ vec_capacity list.old }
    ensures { IsRenewed removed.now added.now cells.items places list.old.items list.new.items }
{
    blank_all(list, removed);
    lengthen(list, places);
    put_all(list, added, cells);
}

/// Writes the cell of each entry at the entry's name.
pub fn write_list(list: &mut Vec<Option<Atom>>, mut entries: Vec<(u32, Option<Atom>)>)
    requires { MayWrite entries.items list.old.items }
    ensures { IsListWritten entries.items list.old.items list.new.items }
{
    while let Some((name, cell)) = entries.pop() {
        set_cell(list, name, cell);
    }
}

/// Blanks the cells of the names.
fn blank_all(list: &mut Vec<Option<Atom>>, names: &[u32])
    requires ascend { ascends names.now ≡ true }
    requires within { (k : ℕ) → k < length names.now → slice_index names.now k < length list.old.items }
    ensures written { AreCellsWritten (λ k. k < length names.now) names.now (λ k. None) list.old.items list.new.items }
    ensures room { vec_capacity list.new ≡ vec_capacity list.old }
{
    for name in names {
        set_cell(list, *name, None);
    }
}

/// Adds blank cells up to so many.
fn lengthen(list: &mut Vec<Option<Atom>>, places: u32)
    requires grows { length list.old.items ≤ places }
    requires room { places ≤ vec_capacity list.old }
    ensures long { length list.new.items ≡ places }
    ensures same { (x : ℕ) → cell_at list.new.items x ≡ cell_at list.old.items x }
{
    for _ in list.len()..places as usize {
        let pushed = list.push(None);
        prove!(pushed.is_ok());
    }
}

/// Puts the cell beside each name at it.
fn put_all(list: &mut Vec<Option<Atom>>, names: &[u32], mut cells: Vec<Option<Atom>>)
    requires ascend { ascends names.now ≡ true }
    requires within { (k : ℕ) → k < length names.now → slice_index names.now k < length list.old.items }
    requires beside { length cells.items ≡ length names.now }
    ensures { AreCellsWritten (λ k. k < length names.now) names.now (λ k. slice_index_or cells.items k None) list.old.items list.new.items }
{
    while let Some(cell) = cells.pop() {
        set_cell(list, names[cells.len()], cell);
    }
}

/// Writes the cell at the place, and lets go of what was there.
fn set_cell(list: &mut Vec<Option<Atom>>, place: u32, cell: Option<Atom>)
    requires { place < length list.old.items }
    ensures set { list.new.items ≡ slice_set list.old.items place cell }
    ensures room { vec_capacity list.new ≡ vec_capacity list.old }
{
    list[place as usize] = cell;
}
