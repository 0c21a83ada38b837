//! Maps of a span or a cospan.

ghost use Rattle.std.specs.Prelude.{◌≡◌, IfOk, option_map};
ghost use Rattle.serde_json.specs.View.{view};
ghost use Rattle.rw_schema.specs.Presentation.{signature_of};
ghost use Rattle.rw_spec.specs.Tabled.{IsOver, instance_of_table};
ghost use Rattle.rw_map.specs.HomFaults.{hom_fault};
ghost use Rattle.rw_map.specs.Homs.{IsHom};
ghost use Rattle.rw_doc.specs.Chain.{unfaulted};
ghost use Rattle.rw_doc.specs.Gives.{Gives};
ghost use Rattle.rw_doc.specs.Pieces.{fault_in};
ghost use Rattle.rw_docspan.specs.Maps as spec;

use rw_doc::{Piece, ReadDocEnd, as_number_lists};
use rw_map::{Hom, HomFault};
use rw_schema::{PartMap, Schema};
use rw_table::Table;
use serde_json::Value;
use std::alloc::Global;

/// The code of what is wrong with a map.
fn code_of(fault: HomFault) -> u8
    ensures { result ≡ spec.code_of fault }
{
    match fault {
        HomFault::Shape { .. } => 2,
        HomFault::Range { .. } => 8,
        HomFault::NotNatural { .. } | HomFault::Cell { .. } => 11,
    }
}

/// The images, where they are a homomorphism from the one instance to the other.
fn map_between(
    schema: &Schema,
    piece: Piece,
    from: &Table,
    to: &Table,
    images: PartMap,
) -> Result<PartMap, ReadDocEnd>
    requires from { IsOver schema.now from.now }
    requires to { IsOver schema.now to.now }
    ensures gives { Gives (λ images. images) result
        (unfaulted (option_map (λ fault. fault_in piece (spec.code_of fault)) (hom_fault (signature_of schema.now) (instance_of_table from.now) (instance_of_table to.now) images)) images) }
    ensures hom { IfOk result (IsHom (signature_of schema.now) (instance_of_table from.now) (instance_of_table to.now)) }
{
    match Hom::check(schema, from, to, &images) {
        Ok(()) => Ok(images),
        Err(fault) => Err(piece.refused(code_of(fault))),
    }
}

/// A homomorphism from the one instance to the other: one list of images for each object.
pub(crate) fn read_map(
    alloc: Global,
    schema: &Schema,
    piece: Piece,
    from: &Table,
    to: &Table,
    value: &Value,
) -> Result<PartMap, ReadDocEnd>
    requires from { IsOver schema.now from.now }
    requires to { IsOver schema.now to.now }
    ensures gives { Gives (λ images. images) result (spec.read_map (signature_of schema.now) piece from.now to.now (view value.now)) }
    ensures hom { IfOk result (IsHom (signature_of schema.now) (instance_of_table from.now) (instance_of_table to.now)) }
{
    let Some(images) = as_number_lists(alloc, value)? else {
        return Err(piece.refused(2));
    };
    if images.len() != schema.objects() {
        return Err(piece.refused(2));
    }
    map_between(schema, piece, from, to, PartMap::from_lists(images))
}
