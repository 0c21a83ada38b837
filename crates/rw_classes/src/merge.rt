//! The atoms that the parts of classes have in one attribute.

ghost use Rattle.std.specs.Prelude.{◌≡◌, ◌<◌, ◌≤◌, ◌+◌, ◌^◌, ◌++◌, ◌&&◌, ◌↔◌, ℕ, All, IfOk, IsTrue, List, MatchOption, None, Option, Some, is_none, is_some, length, replicate, slice_index_or};
ghost use Rattle.rw_classes.specs.Merging.{AreFirsts, Merges, cell_at};
ghost use Rattle.rw_classes.specs.inner.Merging.{AreDifferent, DiffersFrom, LeastDifference, comes_before};

use rw_schema::{Atom, OutOfMemory};
use std::alloc::Global;

/// Two parts of one class with different atoms: the first part of the class that has an atom, and the first later one
/// whose atom differs.
#[derive(Clone, Copy)]
pub struct Difference {
    pub class: u32,
    pub first: u32,
    pub second: u32,
}

/// What the parts of classes have in one attribute.
#[derive(Drop)]
pub enum Merged {
    /// The atoms of each class are the same: of each class its first part that has one, if there is such a part.
    Firsts(Vec<Option<u32>>),
    /// Two parts of one class have different atoms; there is no such class before it.
    Differ(Difference),
}

/// The atoms of the classes of parts. A part is given by its place: the left parts come first, and each has a cell and
/// the number of its class. The time is linear in the parts.
pub fn merge(
    alloc: Global,
    numbers: &[u32],
    classes: usize,
    left: &[Option<Atom>],
    right: &[Option<Atom>],
) -> Result<Merged, OutOfMemory>
    requires each { length numbers.now ≡ length left.now + length right.now }
    requires within { All (λ class. class < classes) numbers.now }
    requires few { length numbers.now < 2 ^ 32 }
    ensures { IfOk result (Merges (cell_at (left.now ++ right.now)) numbers.now classes) }
{
    let mut firsts = vec![in alloc; None; classes]?;
    set_firsts(&mut firsts, numbers, left, right);
    match least_difference(&firsts, numbers, left, right) {
        Some(difference) => Ok(Merged::Differ(difference)),
        None => Ok(Merged::Firsts(firsts)),
    }
}

/// The cell of the part at a place.
pub fn cell<'a>(
    left: &'a [Option<Atom>],
    right: &'a [Option<Atom>],
    place: usize,
) -> &'a Option<Atom>
    requires { place < length left.now + length right.now }
    ensures { result.now ≡ cell_at (left.now ++ right.now) place }
{
    if place < left.len() {
        &left[place]
    } else {
        &right[place - left.len()]
    }
}

/// Whether there is an atom, and none of an earlier part of the class.
fn begins(firsts: &[Option<u32>], class: u32, cell: &Option<Atom>) -> bool
    requires { class < length firsts.now }
    ensures { result ≡ (is_some cell.now && is_none (slice_index_or firsts.now class None)) }
{
    cell.is_some() && firsts[class as usize].is_none()
}

/// Sets of each class the place of its first part that has an atom.
fn set_firsts(
    firsts: &mut [Option<u32>],
    numbers: &[u32],
    left: &[Option<Atom>],
    right: &[Option<Atom>],
)
    requires each { length numbers.now ≡ length left.now + length right.now }
    requires within { All (λ class. class < length firsts.old) numbers.now }
    requires few { length numbers.now < 2 ^ 32 }
    requires blank { AreFirsts (cell_at (left.now ++ right.now)) numbers.now 0 firsts.old }
    ensures each { length firsts.new ≡ length firsts.old }
    ensures firsts { AreFirsts (cell_at (left.now ++ right.now)) numbers.now (length numbers.now) firsts.new }
{
    for (place, class) in numbers.iter().enumerate() {
        if begins(firsts, *class, cell(left, right, place)) {
            firsts[*class as usize] = Some(place as u32);
        }
    }
}

/// Whether both cells have an atom, and these differ.
fn are_different(one: &Option<Atom>, other: &Option<Atom>) -> bool
    ensures { IsTrue result ↔ AreDifferent one.now other.now }
{
    one.is_some() && other.is_some() && one != other
}

/// The first part of the class, if the atom of the part at the place differs from its atom.
fn differing_first(
    firsts: &[Option<u32>],
    numbers: &[u32],
    left: &[Option<Atom>],
    right: &[Option<Atom>],
    place: usize,
) -> Option<u32>
    requires each { length numbers.now ≡ length left.now + length right.now }
    requires within { All (λ class. class < length firsts.now) numbers.now }
    requires firsts { AreFirsts (cell_at (left.now ++ right.now)) numbers.now (length numbers.now) firsts.now }
    requires place { place < length numbers.now }
    ensures { MatchOption result
        ((first : ℕ) → DiffersFrom (cell_at (left.now ++ right.now)) numbers.now firsts.now place first → ⊥)
        (DiffersFrom (cell_at (left.now ++ right.now)) numbers.now firsts.now place) }
{
    let first = firsts[numbers[place] as usize]?;
    if are_different(cell(left, right, first as usize), cell(left, right, place)) {
        Some(first)
    } else {
        None
    }
}

/// Whether a difference in the class comes before the one that was found.
fn is_before(class: u32, found: Option<Difference>) -> bool
    ensures { result ≡ comes_before class found }
{
    match found {
        Some(difference) => class < difference.class,
        None => true,
    }
}

/// The first difference of the least class that has one.
fn least_difference(
    firsts: &[Option<u32>],
    numbers: &[u32],
    left: &[Option<Atom>],
    right: &[Option<Atom>],
) -> Option<Difference>
    requires each { length numbers.now ≡ length left.now + length right.now }
    requires within { All (λ class. class < length firsts.now) numbers.now }
    requires few { length numbers.now < 2 ^ 32 }
    requires firsts { AreFirsts (cell_at (left.now ++ right.now)) numbers.now (length numbers.now) firsts.now }
    ensures { LeastDifference (cell_at (left.now ++ right.now)) numbers.now firsts.now (length numbers.now) result }
{
    let mut found = None;
    for (place, class) in numbers.iter().enumerate() {
        if let Some(first) = differing_first(firsts, numbers, left, right, place) {
            if is_before(*class, found) {
                found = Some(Difference {
                    class: *class,
                    first,
                    second: place as u32,
                });
            }
        }
    }
    found
}
