//! The names of pairs, and the parts that they are made of.

ghost use Rattle.std.specs.Prelude.{◌≡◌, ◌≤◌, All, IfOk, length, map};
ghost use Rattle.std.specs.List.{range_with_len};
ghost use Rattle.rw_limits.specs.Pullbacks.{most_pairs};

use rw_schema::{OutOfMemory, numbers_below};
use std::alloc::Global;

/// The names of the pairs of each object: numbers from 0.
pub fn pair_names(alloc: Global, pairs: &[Vec<(u32, u32)>]) -> Result<Vec<Vec<u32>>, OutOfMemory>
    requires { All (λ list. length list.items ≤ most_pairs) pairs.now }
    ensures { IfOk result (λ names. map (λ list. list.items) names.items ≡ map (λ list. range_with_len 0 (length list.items)) pairs.now) }
{
    let mut names = Vec::new(alloc);
    for list in pairs {
        names.push(numbers_below(alloc, list.len() as u32)?)?;
    }
    Ok(names)
}

/// The number of pairs of each object.
pub fn pair_counts(alloc: Global, pairs: &[Vec<(u32, u32)>]) -> Result<Vec<u32>, OutOfMemory>
    requires { All (λ list. length list.items ≤ most_pairs) pairs.now }
    ensures { IfOk result (λ counts. counts.items ≡ map (λ list. length list.items) pairs.now) }
{
    let mut counts = Vec::new(alloc);
    for list in pairs {
        counts.push(list.len() as u32)?;
    }
    Ok(counts)
}

/// Of each object the left part of each pair.
pub fn left_lists(alloc: Global, pairs: &[Vec<(u32, u32)>]) -> Result<Vec<Vec<u32>>, OutOfMemory>
    ensures { IfOk result (λ parts. map (λ list. list.items) parts.items ≡ map (λ list. map (λ pair. pair.0) list.items) pairs.now) }
{
    let mut parts = Vec::new(alloc);
    for list in pairs {
        parts.push(left_of(alloc, list.as_slice())?)?;
    }
    Ok(parts)
}

/// Of each object the right part of each pair.
pub fn right_lists(alloc: Global, pairs: &[Vec<(u32, u32)>]) -> Result<Vec<Vec<u32>>, OutOfMemory>
    ensures { IfOk result (λ parts. map (λ list. list.items) parts.items ≡ map (λ list. map (λ pair. pair.1) list.items) pairs.now) }
{
    let mut parts = Vec::new(alloc);
    for list in pairs {
        parts.push(right_of(alloc, list.as_slice())?)?;
    }
    Ok(parts)
}

/// The left part of each pair.
fn left_of(alloc: Global, pairs: &[(u32, u32)]) -> Result<Vec<u32>, OutOfMemory>
    ensures { IfOk result (λ parts. parts.items ≡ map (λ pair. pair.0) pairs.now) }
{
    let parts = pairs.iter().map(|pair| pair.0).collect(alloc)?;
    Ok(parts)
}

/// The right part of each pair.
fn right_of(alloc: Global, pairs: &[(u32, u32)]) -> Result<Vec<u32>, OutOfMemory>
    ensures { IfOk result (λ parts. parts.items ≡ map (λ pair. pair.1) pairs.now) }
{
    let parts = pairs.iter().map(|pair| pair.1).collect(alloc)?;
    Ok(parts)
}
