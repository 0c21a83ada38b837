//! Whether equations are well formed.

ghost use Rattle.std.specs.Prelude.{◌≡◌, ◌<◌, ◌&&◌, length, true};
ghost use Rattle.std.specs.List.{list_all};
ghost use Rattle.rw_schema.specs.First.{or_else};
ghost use Rattle.rw_schema.specs.SchemaFaults.{has_arrows, is_of_schema, first_nameless, first_apart, end_of_arrow, end_of_path, is_same_end, sides_meet};

use crate::{ArrowDef, ArrowId, Equation, SchemaFault, Section};

/// Whether each number of the path is an arrow.
fn are_arrows(arrows: usize, path: &[ArrowId]) -> bool
    ensures { result ≡ has_arrows arrows path.now }
{
    path.iter().all(|arrow| (arrow.0 as usize) < arrows)
}

/// Whether the equation's object is one, and each number of its sides an arrow.
fn is_known(objects: usize, arrows: usize, equation: &Equation) -> bool
    ensures { result ≡ is_of_schema objects arrows equation.now }
{
    (equation.object.0 as usize) < objects
        && are_arrows(arrows, equation.left.arrows())
        && are_arrows(arrows, equation.right.arrows())
}

/// The first equation with a number that names nothing.
fn unknown_number(objects: usize, arrows: usize, equations: &[Equation]) -> Option<SchemaFault>
    requires { length equations.now < 257 }
    ensures { result ≡ first_nameless objects arrows equations.now }
{
    for (place, equation) in equations.iter().enumerate() {
        if !is_known(objects, arrows, equation) {
            return Some(SchemaFault::Unknown {
                section: Section::Equations,
                index: place as u32,
            });
        }
    }
    None
}

/// Where the arrow leads from the object, if it leaves that object.
fn arrow_end(arrows: &[ArrowDef], object: u16, arrow: ArrowId) -> Option<u16>
    requires { arrow.0 < length arrows.now }
    ensures { result ≡ end_of_arrow arrows.now object arrow.0 }
{
    let entry = &arrows[arrow.0 as usize];
    if entry.source.0 == object {
        Some(entry.target.0)
    } else {
        None
    }
}

/// Where the path leads from the object, if each arrow leaves the object that the path has come to.
fn path_end(arrows: &[ArrowDef], object: u16, path: &[ArrowId]) -> Option<u16>
    requires { has_arrows (length arrows.now) path.now ≡ true }
    ensures { result ≡ end_of_path arrows.now object path.now }
{
    let mut end = object;
    for arrow in path {
        end = arrow_end(arrows, end, *arrow)?;
    }
    Some(end)
}

/// Whether both ends are there, and are the same.
fn is_one_end(left: Option<u16>, right: Option<u16>) -> bool
    ensures { result ≡ is_same_end left right }
{
    match (left, right) {
        (Some(left), Some(right)) => left == right,
        _ => false,
    }
}

/// Whether both sides lead from the equation's object to one object.
pub fn do_sides_meet(arrows: &[ArrowDef], equation: &Equation) -> bool
    requires left { has_arrows (length arrows.now) equation.now.left ≡ true }
    requires right { has_arrows (length arrows.now) equation.now.right ≡ true }
    ensures { result ≡ sides_meet arrows.now equation.now }
{
    let left = path_end(arrows, equation.object.0, equation.left.arrows());
    let right = path_end(arrows, equation.object.0, equation.right.arrows());
    is_one_end(left, right)
}

/// The first equation whose sides do not meet. Each number of its sides must be an arrow.
fn apart(arrows: &[ArrowDef], equations: &[Equation]) -> Option<SchemaFault>
    requires few { length equations.now < 257 }
    requires known { list_all (λ equation. has_arrows (length arrows.now) equation.left && has_arrows (length arrows.now) equation.right) equations.now ≡ true }
    ensures { result ≡ first_apart arrows.now equations.now }
{
    for (place, equation) in equations.iter().enumerate() {
        if !do_sides_meet(arrows, equation) {
            return Some(SchemaFault::Ends {
                equation: place as u32,
            });
        }
    }
    None
}

/// The first equation with a number that names nothing, or the first whose sides do not meet.
pub fn first_ill_formed(
    objects: usize,
    arrows: &[ArrowDef],
    equations: &[Equation],
) -> Option<SchemaFault>
    requires { length equations.now < 257 }
    ensures { result ≡ or_else (first_nameless objects (length arrows.now) equations.now) (first_apart arrows.now equations.now) }
{
    match unknown_number(objects, arrows.len(), equations) {
        Some(fault) => Some(fault),
        None => apart(arrows, equations),
    }
}
