//! Whether what a pattern wants of cells is of the kinds of their attributes.

ghost use Rattle.std.specs.Prelude.{◌≡◌, ◌<◌, ◌≤◌, Some, All, length, map, slice_get};
ghost use Rattle.rw_schema.specs.Presentation.{signature_of, ends_of_attribute};
ghost use Rattle.rw_pattern.specs.PatternFaults.{constant_fault, variable_fault, fits_constant, fits_variable, is_variable_of};

use crate::{Pattern, PatternCell, PatternFault, Want};
use rw_schema::{AttrDef, Kind, Schema};

/// The first entry with a constant of another kind than its attribute.
pub fn first_constant_fault(schema: &Schema, pattern: &Pattern) -> Option<PatternFault>
    requires attributes { All (λ entry. entry.attr.0 < length schema.now.attributes) pattern.now.cells }
    requires few { length pattern.now.cells ≤ 256 }
    ensures { result ≡ constant_fault (signature_of schema.now) pattern.now }
{
    for (place, entry) in pattern.cells().iter().enumerate() {
        if !has_fitting_constant(schema, entry) {
            return Some(PatternFault::Kind { cell: place as u32 });
        }
    }
    None
}

/// Whether the entry's constant, if it wants one, is of its attribute's kind.
fn has_fitting_constant(schema: &Schema, entry: &PatternCell) -> bool
    requires { entry.now.attr.0 < length schema.now.attributes }
    ensures { result ≡ fits_constant (slice_get (map ends_of_attribute schema.now.attributes) entry.now.attr.0) entry.now.want }
{
    let attribute = schema.attr(entry.attr);
    match &entry.want {
        Want::Const(atom) => atom.is_of(attribute.kind),
        Want::Var(_) => true,
    }
}

/// The first entry with a variable that is not there, or is of another kind than its attribute.
pub fn first_variable_fault(
    schema: &Schema,
    pattern: &Pattern,
    kinds: &[Kind],
) -> Option<PatternFault>
    requires attributes { All (λ entry. entry.attr.0 < length schema.now.attributes) pattern.now.cells }
    requires few { length pattern.now.cells ≤ 256 }
    ensures { result ≡ variable_fault (signature_of schema.now) kinds.now pattern.now }
{
    for (place, entry) in pattern.cells().iter().enumerate() {
        if !has_fitting_variable(schema, kinds, entry) {
            return Some(PatternFault::Variable { cell: place as u32 });
        }
    }
    None
}

/// Whether the entry's variable, if it wants one, is there and of its attribute's kind.
fn has_fitting_variable(schema: &Schema, kinds: &[Kind], entry: &PatternCell) -> bool
    requires { entry.now.attr.0 < length schema.now.attributes }
    ensures { result ≡ fits_variable kinds.now (slice_get (map ends_of_attribute schema.now.attributes) entry.now.attr.0) entry.now.want }
{
    let attribute = schema.attr(entry.attr);
    match &entry.want {
        Want::Const(_) => true,
        Want::Var(variable) => is_of(kinds, *variable, attribute),
    }
}

/// Whether the variable is there, and is of the attribute's kind.
fn is_of(kinds: &[Kind], variable: u32, attribute: &AttrDef) -> bool
    ensures { result ≡ is_variable_of (Some (ends_of_attribute attribute.now)) (slice_get kinds.now variable) }
{
    match kinds.get(variable as usize) {
        Some(kind) => kind.is(attribute.kind),
        None => false,
    }
}
