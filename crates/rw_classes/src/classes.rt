//! Classes of numbers under the least equivalence that joins given pairs.

ghost use Rattle.std.specs.Prelude.{◌≡◌, ◌<◌, ◌≤◌, ◌^◌, [], ◌∷◌, All, IfOk, length};
ghost use Rattle.std.specs.List.{range_with_len};
ghost use Rattle.rw_classes.specs.Classes.{AreClasses};
ghost use Rattle.rw_classes.specs.inner.Links.{AreRootClasses, AreUnited, Descends, IsRootOf, IsShortened};

use rw_schema::{OutOfMemory, numbers_below};
use std::alloc::Global;

/// Numbers below a bound divided into classes: of each number its class, and of each class its least number. The
/// classes are numbered in the order of their least numbers.
#[derive(Drop)]
pub struct Classes {
    pub numbers: Vec<u32>,
    pub firsts: Vec<u32>,
}

/// The classes of the numbers below n under the least equivalence that joins the pairs. Each number has a parent that is
/// never greater than itself; a union follows both numbers to their roots, halving the way, and sets the greater root
/// under the lesser. The time is near linear in numbers and pairs.
///
/// Tarjan, "Efficiency of a good but not linear set union algorithm" (1975).
pub fn join(alloc: Global, n: u32, pairs: &[(u32, u32)]) -> Result<Classes, OutOfMemory>
    requires { All (λ pair. (pair.0 < n) × (pair.1 < n)) pairs.now }
    ensures { IfOk result (λ classes. AreClasses n pairs.now classes.numbers.items classes.firsts.items) }
{
    let mut parents = numbers_below(alloc, n)?;
    unite_all(&mut parents, pairs);
    number_trees(alloc, &parents)
}

/// Joins the trees of the two numbers of each pair.
fn unite_all(parents: &mut [u32], pairs: &[(u32, u32)])
    requires descends { Descends parents.old }
    requires within { All (λ pair. (pair.0 < length parents.old) × (pair.1 < length parents.old)) pairs.now }
    ensures { AreUnited pairs.now parents.old parents.new }
{
    for pair in pairs {
        unite(parents, pair.0, pair.1);
    }
}

/// Joins the trees of two numbers: the greater root goes under the lesser.
fn unite(parents: &mut [u32], x: u32, y: u32)
    requires descends { Descends parents.old }
    requires x_within { x < length parents.old }
    requires y_within { y < length parents.old }
    ensures { AreUnited ((x, y) ∷ []) parents.old parents.new }
{
    let x_root = root(parents, x);
    let y_root = root(parents, y);
    if x_root < y_root {
        parents[y_root as usize] = x_root;
    } else {
        parents[x_root as usize] = y_root;
    }
}

/// The root of the tree that x is in. Each second number on the way gets its parent's parent.
fn root(parents: &mut [u32], x: u32) -> u32
    requires descends { Descends parents.old }
    requires within { x < length parents.old }
    ensures way { IsShortened parents.old parents.new }
    ensures root { IsRootOf parents.new x result }
{
    let mut at = x;
    while parents[at as usize] != at {
        let parent = parents[at as usize];
        let beyond = parents[parent as usize];
        parents[at as usize] = beyond;
        at = beyond;
    }
    at
}

/// The trees as classes. A root begins a class; each other number is in the class of its parent, which is lesser.
fn number_trees(alloc: Global, parents: &[u32]) -> Result<Classes, OutOfMemory>
    requires descends { Descends parents.now }
    requires few { length parents.now < 2 ^ 32 }
    ensures { IfOk result (λ classes. AreRootClasses parents.now (length parents.now) classes.numbers.items classes.firsts.items) }
{
    let mut numbers: Vec<u32> = Vec::new(alloc);
    let mut firsts: Vec<u32> = Vec::new(alloc);
    for (x, parent) in parents.iter().enumerate() {
        if *parent as usize == x {
            numbers.push(firsts.len() as u32)?;
            firsts.push(x as u32)?;
        } else {
            numbers.push(numbers[*parent as usize])?;
        }
    }
    Ok(Classes { numbers, firsts })
}
