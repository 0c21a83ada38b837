//! The names of classes, and the class of each part.

ghost use Rattle.std.specs.Prelude.{◌≡◌, ◌<◌, ◌≤◌, ◌^◌, ℕ, All, IfOk, drop, length, map, take};
ghost use Rattle.std.specs.List.{range_with_len};
ghost use Rattle.rw_schema.specs.RowLists.{list_at};
ghost use Rattle.rw_limits.specs.inner.Spans.{class_names, left_classes, right_classes};
ghost use Rattle.rw_classes.specs.ClassLists.{number_lists, first_lists};

use rw_classes::Classes;
use rw_schema::{ObjectId, OutOfMemory, Rows, numbers_below};
use std::alloc::Global;

/// Of each object the names of its classes, which are their numbers.
pub fn name_lists(alloc: Global, classes: &[Classes]) -> Result<Vec<Vec<u32>>, OutOfMemory>
    requires { All (λ each. length each.firsts.items < 2 ^ 32) classes.now }
    ensures { IfOk result (λ names. map (λ list. list.items) names.items ≡ class_names (first_lists classes.now)) }
{
    let mut names = Vec::new(alloc);
    for each in classes {
        names.push(numbers_below(alloc, each.firsts.len() as u32)?)?;
    }
    Ok(names)
}

/// Of each object the number of its classes.
pub fn class_counts(alloc: Global, classes: &[Classes]) -> Result<Vec<u32>, OutOfMemory>
    requires { All (λ each. length each.firsts.items < 2 ^ 32) classes.now }
    ensures { IfOk result (λ counts. counts.items ≡ map length (first_lists classes.now)) }
{
    let mut counts = Vec::new(alloc);
    for each in classes {
        counts.push(each.firsts.len() as u32)?;
    }
    Ok(counts)
}

/// Of each object the class of each left part.
pub fn left_lists(
    alloc: Global,
    left: &Rows,
    classes: &[Classes],
) -> Result<Vec<Vec<u32>>, OutOfMemory>
    requires few { length classes.now ≤ 64 }
    requires objects { length classes.now ≤ length left.now.names }
    requires counts { (object : ℕ) → object < length classes.now → length (list_at left.now.names object) ≤ length (list_at (number_lists classes.now) object) }
    ensures { IfOk result (λ lists. map (λ list. list.items) lists.items ≡ left_classes left.now (number_lists classes.now)) }
{
    let mut lists = Vec::new(alloc);
    for (place, each) in classes.iter().enumerate() {
        let count = left.names(ObjectId(place as u16)).len();
        lists.push(front(alloc, each.numbers.as_slice(), count)?)?;
    }
    Ok(lists)
}

/// The first numbers.
fn front(alloc: Global, numbers: &[u32], count: usize) -> Result<Vec<u32>, OutOfMemory>
    requires { count ≤ length numbers.now }
    ensures { IfOk result (λ list. list.items ≡ take count numbers.now) }
{
    let list = numbers[..count].to_vec(alloc)?;
    Ok(list)
}

/// Of each object the class of each right part.
pub fn right_lists(
    alloc: Global,
    left: &Rows,
    classes: &[Classes],
) -> Result<Vec<Vec<u32>>, OutOfMemory>
    requires few { length classes.now ≤ 64 }
    requires objects { length classes.now ≤ length left.now.names }
    requires counts { (object : ℕ) → object < length classes.now → length (list_at left.now.names object) ≤ length (list_at (number_lists classes.now) object) }
    ensures { IfOk result (λ lists. map (λ list. list.items) lists.items ≡ right_classes left.now (number_lists classes.now)) }
{
    let mut lists = Vec::new(alloc);
    for (place, each) in classes.iter().enumerate() {
        let count = left.names(ObjectId(place as u16)).len();
        lists.push(back(alloc, each.numbers.as_slice(), count)?)?;
    }
    Ok(lists)
}

/// The numbers after the first ones.
fn back(alloc: Global, numbers: &[u32], count: usize) -> Result<Vec<u32>, OutOfMemory>
    requires { count ≤ length numbers.now }
    ensures { IfOk result (λ list. list.items ≡ drop count numbers.now) }
{
    let list = numbers[count..].to_vec(alloc)?;
    Ok(list)
}
