//! Whether lists of images are a homomorphism.

ghost use Rattle.std.specs.Prelude.{◌≡◌, ◌↔◌, IsTrue};
ghost use Rattle.std.specs.Result.{is_ok};
ghost use Rattle.rw_schema.specs.Presentation.{signature_of};
ghost use Rattle.rw_spec.specs.Tabled.{IsOver, instance_of_table};
ghost use Rattle.rw_map.specs.HomFaults.{ChecksHom, hom_fault};
ghost use Rattle.rw_map.specs.Homs.{IsHom};

use crate::HomFault;
use crate::kept::first_cell_fault;
use crate::range::first_range_fault;
use crate::shape::first_shape_fault;
use crate::squares::first_square_fault;
use rw_schema::{PartMap, Schema};
use rw_table::Table;

/// Homomorphisms of instances: maps of parts, natural in the arrows, that keep each atom. A blank cell goes to
/// anything.
///
/// Patterson, Lynch and Fairbanks, "Categorical data structures for technical computing" (2022).
pub struct Hom;

impl Hom {
    /// Checks that the images are a homomorphism from x to y. Lists beyond the objects are not looked at. It takes
    /// no memory, and the time of a look-up or two for each entry.
    pub fn check(schema: &Schema, x: &Table, y: &Table, map: &PartMap) -> Result<(), HomFault>
        requires x { IsOver schema.now x.now }
        requires y { IsOver schema.now y.now }
        ensures fault { ChecksHom (signature_of schema.now) (instance_of_table x.now) (instance_of_table y.now) map.now result }
        ensures exact { IsTrue (is_ok result) ↔ IsHom (signature_of schema.now) (instance_of_table x.now) (instance_of_table y.now) map.now }
    {
        prove!(x.rows().name_lists() == schema.objects());
        match first_fault(schema, x, y, map) {
            Some(fault) => Err(fault),
            None => Ok(()),
        }
    }
}

/// Why the images are no homomorphism: the first condition that fails, at its least place.
fn first_fault(schema: &Schema, x: &Table, y: &Table, map: &PartMap) -> Option<HomFault>
    requires x { IsOver schema.now x.now }
    requires y { IsOver schema.now y.now }
    ensures { result ≡ hom_fault (signature_of schema.now) (instance_of_table x.now) (instance_of_table y.now) map.now }
{
    if let Some(fault) = first_shape_fault(schema, x, map) {
        return Some(fault);
    }
    if let Some(fault) = first_range_fault(schema, x, y, map) {
        return Some(fault);
    }
    if let Some(fault) = first_square_fault(schema, x, y, map) {
        return Some(fault);
    }
    first_cell_fault(schema, x, y, map)
}
