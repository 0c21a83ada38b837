//! The limits of schemas.

ghost use Rattle.std.specs.Prelude.{◌≡◌, ◌&&◌, length, nat_le};
ghost use Rattle.std.specs.List.{list_all};
ghost use Rattle.rw_schema.specs.Limits.{longest_name};
ghost use Rattle.rw_schema.specs.Presentation.{Presentation};
ghost use Rattle.rw_schema.specs.SchemaFaults.{is_name, has_short_sides, is_within_limits};

use crate::{ArrowDef, AttrDef, Equation, Named, Text};

/// The greatest number of objects.
pub const MOST_OBJECTS: usize = 64;

/// The greatest number of arrows.
pub const MOST_ARROWS: usize = 256;

/// The greatest number of attributes.
pub const MOST_ATTRIBUTES: usize = 256;

/// The greatest number of equations.
pub const MOST_EQUATIONS: usize = 256;

/// The greatest number of bytes of a name.
pub const LONGEST_NAME: usize = 255;

/// The greatest number of arrows of a path.
pub const LONGEST_PATH: usize = 32;

/// Whether a name's length is within its limits.
fn is_name_length(length: usize) -> bool
    ensures { result ≡ (nat_le 1 length && nat_le length longest_name) }
{
    1 <= length && length <= LONGEST_NAME
}

/// Whether each item has a name of a length within the limits.
fn are_names<T: Named>(items: &[T]) -> bool
    ensures { result ≡ list_all (λ item. is_name (T.name_of item)) items.now }
{
    items.iter().all(|item| is_name_length(item.name().len()))
}

/// Whether both sides of the equation are short enough.
fn is_short(equation: &Equation) -> bool
    ensures { result ≡ has_short_sides equation.now }
{
    equation.left.arrows().len() <= LONGEST_PATH && equation.right.arrows().len() <= LONGEST_PATH
}

/// Whether both sides of each equation are short enough.
fn are_short(equations: &[Equation]) -> bool
    ensures { result ≡ list_all has_short_sides equations.now }
{
    equations.iter().all(|equation| is_short(equation))
}

/// Whether the counts, the lengths of the names and those of the paths are within the limits.
pub fn are_within_limits(
    objects: &[Text],
    arrows: &[ArrowDef],
    attributes: &[AttrDef],
    equations: &[Equation],
) -> bool
    ensures { result ≡ is_within_limits (record { objects = objects.now; arrows = arrows.now; attributes = attributes.now; equations = equations.now }) }
{
    objects.len() <= MOST_OBJECTS
        && arrows.len() <= MOST_ARROWS
        && attributes.len() <= MOST_ATTRIBUTES
        && equations.len() <= MOST_EQUATIONS
        && are_names(objects)
        && are_names(arrows)
        && are_names(attributes)
        && are_short(equations)
}
