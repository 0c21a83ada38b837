//! Lists of numbers.

ghost use Rattle.std.specs.Prelude.{◌≡◌, ◌==◌, IfOk, map};
ghost use Rattle.std.specs.List.{list_any, range_with_len};

use crate::OutOfMemory;
use std::alloc::Global;

/// Whether the number is among these.
pub fn has_number(numbers: &[u32], number: u32) -> bool
    ensures { result ≡ list_any (λ other. other == number) numbers.now }
{
    numbers.iter().any(|other| *other == number)
}

/// The numbers below the bound, ascending.
pub fn numbers_below(alloc: Global, bound: u32) -> Result<Vec<u32>, OutOfMemory>
    ensures { IfOk result (λ numbers. numbers.items ≡ range_with_len 0 bound) }
{
    let mut numbers = Vec::new(alloc);
    for number in 0..bound {
        numbers.push(number)?;
    }
    Ok(numbers)
}

/// A copy of each list.
pub fn copy_lists(alloc: Global, lists: &[Vec<u32>]) -> Result<Vec<Vec<u32>>, OutOfMemory>
    ensures { IfOk result (λ copies. map (λ list. list.items) copies.items ≡ map (λ list. list.items) lists.now) }
{
    let mut copies = Vec::new(alloc);
    for list in lists {
        copies.push(list.as_slice().to_vec(alloc)?)?;
    }
    Ok(copies)
}
