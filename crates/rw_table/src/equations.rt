//! Whether the equations hold.

ghost use Rattle.std.specs.Prelude.{◌≡◌, ◌<◌, ◌≤◌, true, IfOk, None, length};
ghost use Rattle.std.specs.List.{list_all};
ghost use Rattle.rw_schema.specs.First.{first_in};
ghost use Rattle.rw_schema.specs.SchemaFaults.{has_arrows, is_of_schema};
ghost use Rattle.rw_spec.specs.Instance.{follow, agrees_at};
ghost use Rattle.rw_table.specs.inner.Along.{instance_along, AreRowsOf};
ghost use Rattle.rw_table.specs.TableFaults.{failure_of, names_fault};

use crate::TableFault;
use crate::beside::entry_beside;
use rw_schema::{ArrowEnds, ArrowId, Equation, OutOfMemory, Rows};
use std::alloc::Global;

/// A copy of each equation.
pub fn copy_equations(alloc: Global, equations: &[Equation]) -> Result<Vec<Equation>, OutOfMemory>
    ensures { IfOk result (λ copies. copies.items ≡ equations.now) }
{
    let mut copies = Vec::new(alloc);
    for equation in equations {
        copies.push(equation.copy(alloc)?)?;
    }
    Ok(copies)
}

/// The first equation that fails at a name.
pub fn first_equation_fault(
    rows: &Rows,
    arrows: &[ArrowEnds],
    equations: &[Equation],
) -> Option<TableFault>
    requires few { length equations.now ≤ 256 }
    requires numbers { list_all (is_of_schema (length rows.now.names) (length arrows.now)) equations.now ≡ true }
    requires rows { AreRowsOf arrows.now rows.now }
    requires names { names_fault rows.now ≡ None }
    ensures { result ≡ first_in (failure_of (instance_along arrows.now rows.now)) 0 equations.now }
{
    for (place, equation) in equations.iter().enumerate() {
        if let Some(fault) = first_failure(rows, arrows, place as u32, equation) {
            return Some(fault);
        }
    }
    None
}

/// The first name at which the equation fails.
fn first_failure(
    rows: &Rows,
    arrows: &[ArrowEnds],
    place: u32,
    equation: &Equation,
) -> Option<TableFault>
    requires numbers { is_of_schema (length rows.now.names) (length arrows.now) equation.now ≡ true }
    requires rows { AreRowsOf arrows.now rows.now }
    requires names { names_fault rows.now ≡ None }
    ensures { result ≡ failure_of (instance_along arrows.now rows.now) place equation.now }
{
    for name in rows.names(equation.object) {
        if !does_agree(rows, arrows, equation, *name) {
            return Some(TableFault::Equation {
                equation: place,
                name: *name,
            });
        }
    }
    None
}

/// Whether both sides of the equation lead from the name to one name.
fn does_agree(rows: &Rows, arrows: &[ArrowEnds], equation: &Equation, name: u32) -> bool
    requires left { has_arrows (length arrows.now) equation.now.left ≡ true }
    requires right { has_arrows (length arrows.now) equation.now.right ≡ true }
    requires rows { AreRowsOf arrows.now rows.now }
    requires names { names_fault rows.now ≡ None }
    ensures { result ≡ agrees_at (instance_along arrows.now rows.now) equation.now name }
{
    end_of(rows, arrows, equation.left.arrows(), name)
        == end_of(rows, arrows, equation.right.arrows(), name)
}

/// Where the path leads from the name.
pub fn end_of(rows: &Rows, arrows: &[ArrowEnds], path: &[ArrowId], name: u32) -> u32
    requires path { has_arrows (length arrows.now) path.now ≡ true }
    requires rows { AreRowsOf arrows.now rows.now }
    requires names { names_fault rows.now ≡ None }
    ensures { result ≡ follow (instance_along arrows.now rows.now) path.now name }
{
    let mut end = name;
    for arrow in path {
        end = image_of(rows, arrows, *arrow, end);
    }
    end
}

/// Where the arrow leads from the name, and 0 where its source has no such name.
fn image_of(rows: &Rows, arrows: &[ArrowEnds], arrow: ArrowId, name: u32) -> u32
    requires arrow { arrow.0 < length arrows.now }
    requires rows { AreRowsOf arrows.now rows.now }
    requires names { names_fault rows.now ≡ None }
    ensures { result ≡ (instance_along arrows.now rows.now).value arrow.0 name }
{
    let source = arrows[arrow.0 as usize].source;
    entry_beside(rows.names(source), rows.row(arrow), name).unwrap_or(0)
}
