//! Lists that are made one after the other.

ghost use Rattle.std.specs.Prelude.{◌≡◌, ◌<◌, ◌++◌, [], ◌∷◌, All, IfOk, OnOk, length, map, slice_index};
ghost use Rattle.rw_schema.specs.RowLists.{list_at};

use rw_schema::OutOfMemory;
use std::alloc::Global;

/// Puts a list behind the others.
pub fn add_list<A: Drop>(lists: &mut Vec<Vec<A>>, list: Vec<A>) -> Result<(), OutOfMemory>
    ensures { OnOk result (map (λ list. list.items) lists.new.items ≡ map (λ list. list.items) lists.old.items ++ list.items ∷ []) }
{
    lists.push(list)?;
    Ok(())
}

/// The list at the place.
pub fn list_of<A>(lists: &[Vec<A>], place: usize) -> &[A]
    requires { place < length lists.now }
    ensures { result.now ≡ list_at (map (λ list. list.items) lists.now) place }
{
    lists[place].as_slice()
}

/// The numbers at the places.
pub fn numbers_at(alloc: Global, numbers: &[u32], places: &[u32]) -> Result<Vec<u32>, OutOfMemory>
    requires { All (λ place. place < length numbers.now) places.now }
    ensures { IfOk result (λ list. list.items ≡ map (slice_index numbers.now) places.now) }
{
    let mut list = Vec::new(alloc);
    for place in places {
        list.push(numbers[*place as usize])?;
    }
    Ok(list)
}

/// A copy of the numbers.
pub fn copied(alloc: Global, numbers: &[u32]) -> Result<Vec<u32>, OutOfMemory>
    ensures { IfOk result (λ list. list.items ≡ numbers.now) }
{
    let list = numbers.to_vec(alloc)?;
    Ok(list)
}
