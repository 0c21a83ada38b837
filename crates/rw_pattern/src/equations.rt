//! Whether the equations of a schema hold of a pattern.

ghost use Rattle.std.specs.Prelude.{◌≡◌, ◌<◌, length, true};
ghost use Rattle.rw_schema.specs.Presentation.{signature_of};
ghost use Rattle.rw_schema.specs.SchemaFaults.{has_arrows};
ghost use Rattle.rw_spec.specs.Instance.{agrees_at, follow as end_of_path};
ghost use Rattle.rw_pattern.specs.PatternFaults.{equation_fault, failure_of, has_shape};
ghost use Rattle.rw_pattern.specs.PatternLists.{instance_of_pattern};

use crate::check::entry_at;
use crate::{Pattern, PatternFault};
use rw_schema::{ArrowId, Equation, Schema};

/// The first equation and part whose two sides lead to different parts.
pub fn first_equation_fault(schema: &Schema, pattern: &Pattern) -> Option<PatternFault>
    requires { has_shape (signature_of schema.now) pattern.now ≡ true }
    ensures { result ≡ equation_fault (signature_of schema.now) pattern.now }
{
    for (place, equation) in schema.equation_list().iter().enumerate() {
        if let Some(fault) = first_failure(pattern, place as u32, equation) {
            return Some(fault);
        }
    }
    None
}

/// The first part from which the two sides of the equation lead to different parts.
fn first_failure(pattern: &Pattern, place: u32, equation: &Equation) -> Option<PatternFault>
    requires object { equation.now.object.0 < length pattern.now.sizes }
    requires left { has_arrows (length pattern.now.rows) equation.now.left ≡ true }
    requires right { has_arrows (length pattern.now.rows) equation.now.right ≡ true }
    ensures { result ≡ failure_of pattern.now place equation.now }
{
    for part in 0..pattern.size(equation.object) {
        if !agrees(pattern, equation, part) {
            return Some(PatternFault::Equation {
                equation: place,
                part,
            });
        }
    }
    None
}

/// Whether both sides of the equation lead from the part to one part.
fn agrees(pattern: &Pattern, equation: &Equation, part: u32) -> bool
    requires left { has_arrows (length pattern.now.rows) equation.now.left ≡ true }
    requires right { has_arrows (length pattern.now.rows) equation.now.right ≡ true }
    ensures { result ≡ agrees_at (instance_of_pattern pattern.now) equation.now part }
{
    follow(pattern, equation.left.arrows(), part) == follow(pattern, equation.right.arrows(), part)
}

/// Where the path leads from the part.
fn follow(pattern: &Pattern, path: &[ArrowId], part: u32) -> u32
    requires { has_arrows (length pattern.now.rows) path.now ≡ true }
    ensures { result ≡ end_of_path (instance_of_pattern pattern.now) path.now part }
{
    let mut end = part;
    for arrow in path {
        end = entry_at(pattern.row(*arrow), end);
    }
    end
}
