//! A change of one column.

ghost use Rattle.std.specs.Prelude.{◌≡◌, ◌≢◌, ◌<◌, ◌≤◌, ℕ, length, slice_index, slice_set, true};
ghost use Rattle.rw_spec.specs.Ascending.{ascends};
ghost use Rattle.rw_spec.specs.Distinct.{AreDistinct};
ghost use Rattle.rw_column.specs.Threads.{nothing};
ghost use Rattle.rw_columns.specs.Changes.{entry_names, entry_values};
ghost use Rattle.rw_columns.specs.inner.Written.{number_at, IsColumnWritten, MayChangeArrow, IsChanged, MayChangeNames, IsChangedNames};

use rw_column::Column;
use std::cmp::Reverse;

/// Carries a change out on the column of an arrow: takes the removed names off, leads the names of the rows elsewhere,
/// and puts the added names on, each with the image beside it.
pub fn change_arrow(
    column: &mut Column,
    removed: &[u32],
    rows: Vec<(u32, u32)>,
    added: &[u32],
    images: &[u32],
    places: u32,
    targets: u32,
)
    requires { MayChangeArrow removed.now rows.items added.now images.now places targets column.old }
    ensures { IsChanged removed.now rows.items added.now images.now places targets column.old column.new }
{
    add_places(column, places);
    add_targets(column, targets);
    unlink_all(column, removed);
    redirect_all(column, rows);
    link_all(column, added, images);
}

/// Carries a change out on the column of an object's names: takes the removed names off and puts the added ones on.
pub fn change_names(column: &mut Column, removed: &[u32], added: &[u32], places: u32)
    requires { MayChangeNames removed.now added.now places column.old }
    ensures { IsChangedNames removed.now added.now places column.old column.new }
{
    add_places(column, places);
    unlink_all(column, removed);
    link_names(column, added);
}

/// Adds places up to so many.
fn add_places(column: &mut Column, places: u32)
    requires grows { length column.old.values ≤ places }
    requires room { places ≤ column.old.room }
    ensures long { length column.new.values ≡ places }
    ensures wide { column.new.targets ≡ column.old.targets }
    ensures target_room { column.old.target_room ≤ column.new.target_room }
    ensures same { (x : ℕ) → number_at column.new x ≡ number_at column.old x }
{
    for _ in column.places()..places {
        column.add_place();
    }
}

/// Adds numbers up to so many.
fn add_targets(column: &mut Column, targets: u32)
    requires widens { column.old.targets ≤ targets }
    requires room { targets ≤ column.old.target_room }
    ensures values { column.new.values ≡ column.old.values }
    ensures wide { column.new.targets ≡ targets }
    ensures few { targets ≤ nothing }
{
    for _ in column.targets()..targets {
        column.add_target();
    }
}

/// Takes their numbers from the names.
fn unlink_all(column: &mut Column, names: &[u32])
    requires ascend { ascends names.now ≡ true }
    requires there { (k : ℕ) → k < length names.now → number_at column.old (slice_index names.now k) ≢ nothing }
    ensures { IsColumnWritten (λ k. k < length names.now) names.now (λ k. nothing) column.old column.new }
{
    for name in names {
        column.unlink(*name);
    }
}

/// Leads the name of each row to the row's value. It takes the rows of one value together, from the greatest name down,
/// so that where their names belong is looked for in one walk over the value's places.
fn redirect_all(column: &mut Column, mut rows: Vec<(u32, u32)>)
    requires ascend { ascends (entry_names rows.items) ≡ true }
    requires there { (k : ℕ) → k < length rows.items → number_at column.old (slice_index (entry_names rows.items) k) ≢ nothing }
    requires within { (k : ℕ) → k < length rows.items → slice_index (entry_values rows.items) k < column.old.targets }
    ensures { IsColumnWritten (λ k. k < length rows.items) (entry_names rows.items) (slice_index (entry_values rows.items)) column.old column.new }
{
    rows.sort_unstable_by_key(|row| Reverse((row.1, row.0)));
    redirect_each(column, rows.as_slice());
}

/// Leads the name of each row to the row's value, in the order of the rows. It takes the least time where the rows of one
/// value stand together with their names in descending order.
fn redirect_each(column: &mut Column, rows: &[(u32, u32)])
    requires distinct { AreDistinct (entry_names rows.now) }
    requires there { (k : ℕ) → k < length rows.now → number_at column.old (slice_index (entry_names rows.now) k) ≢ nothing }
    requires within { (k : ℕ) → k < length rows.now → slice_index (entry_values rows.now) k < column.old.targets }
    ensures { IsColumnWritten (λ k. k < length rows.now) (entry_names rows.now) (slice_index (entry_values rows.now)) column.old column.new }
{
    let mut last = 0;
    for (name, value) in rows {
        redirect(column, *name, *value, last);
        last = *name;
    }
}

/// Gives the place another number. Where another place is behind it and has that number, the place is linked before that one.
#[tactic(auto, using(crate::proofs::Written::set_twice))]
fn redirect(column: &mut Column, place: u32, value: u32, other: u32)
    requires place { place < length column.old.values }
    requires some { slice_index column.old.values place ≢ nothing }
    requires value { value < column.old.targets }
    ensures { column.new ≡ record { values = slice_set column.old.values place value; targets = column.old.targets; room = column.old.room; target_room = column.old.target_room } }
{
    column.unlink(place);
    if place < other && column.has(other, value) {
        column.link_before(place, value, other);
    } else {
        column.link(place, value);
    }
}

/// Gives each name the image beside it.
fn link_all(column: &mut Column, names: &[u32], images: &[u32])
    requires ascend { ascends names.now ≡ true }
    requires places { (k : ℕ) → k < length names.now → slice_index names.now k < length column.old.values }
    requires free { (k : ℕ) → k < length names.now → number_at column.old (slice_index names.now k) ≡ nothing }
    requires beside { length images.now ≡ length names.now }
    requires within { (k : ℕ) → k < length images.now → slice_index images.now k < column.old.targets }
    ensures { IsColumnWritten (λ k. k < length names.now) names.now (slice_index images.now) column.old column.new }
{
    for (place, name) in names.iter().enumerate() {
        column.link(*name, images[place]);
    }
}

/// Gives each name the number 0.
fn link_names(column: &mut Column, names: &[u32])
    requires ascend { ascends names.now ≡ true }
    requires places { (k : ℕ) → k < length names.now → slice_index names.now k < length column.old.values }
    requires free { (k : ℕ) → k < length names.now → number_at column.old (slice_index names.now k) ≡ nothing }
    requires some { 0 < column.old.targets }
    ensures { IsColumnWritten (λ k. k < length names.now) names.now (λ k. 0) column.old column.new }
{
    for name in names {
        column.link(*name, 0);
    }
}
