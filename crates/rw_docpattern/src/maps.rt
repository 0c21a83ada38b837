//! Maps between the patterns of a rule.

ghost use Rattle.std.specs.Prelude.{◌≡◌, option_map};
ghost use Rattle.serde_json.specs.View.{view};
ghost use Rattle.rw_schema.specs.Presentation.{signature_of};
ghost use Rattle.rw_pattern.specs.MapFaults.{map_fault};
ghost use Rattle.rw_pattern.specs.PatternFaults.{IsPatternOf};
ghost use Rattle.rw_doc.specs.Chain.{unfaulted};
ghost use Rattle.rw_doc.specs.Gives.{Gives};
ghost use Rattle.rw_docpattern.specs.Maps as spec;
ghost use Rattle.rw_doc.specs.Pieces.{fault_in};

use rw_doc::{Piece, ReadDocEnd, as_number_lists};
use rw_pattern::{MapFault, Pattern, check_map};
use rw_schema::{PartMap, Schema};
use serde_json::Value;
use std::alloc::Global;

/// The code of what is wrong with a map.
fn code_of(fault: MapFault) -> u8
    ensures { result ≡ spec.code_of fault }
{
    match fault {
        MapFault::Shape => 2,
        MapFault::Range { .. } => 8,
        MapFault::NotNatural { .. } => 11,
    }
}

/// The images, where they are a map from the one pattern to the other.
fn map_between(
    schema: &Schema,
    piece: Piece,
    from: &Pattern,
    to: &Pattern,
    images: PartMap,
) -> Result<PartMap, ReadDocEnd>
    requires from { IsPatternOf (signature_of schema.now) from.now }
    requires to { IsPatternOf (signature_of schema.now) to.now }
    ensures { Gives (λ images. images) result
        (unfaulted (option_map (λ fault. fault_in piece (spec.code_of fault)) (map_fault (signature_of schema.now) from.now to.now images)) images) }
{
    match check_map(schema, from, to, &images) {
        Ok(()) => Ok(images),
        Err(fault) => Err(piece.refused(code_of(fault))),
    }
}

/// A map from the one pattern to the other: one list of images for each object.
pub fn read_map(
    alloc: Global,
    schema: &Schema,
    piece: Piece,
    from: &Pattern,
    to: &Pattern,
    value: &Value,
) -> Result<PartMap, ReadDocEnd>
    requires from { IsPatternOf (signature_of schema.now) from.now }
    requires to { IsPatternOf (signature_of schema.now) to.now }
    ensures { Gives (λ images. images) result (spec.read_map (signature_of schema.now) piece from.now to.now (view value.now)) }
{
    let Some(images) = as_number_lists(alloc, value)? else {
        return Err(piece.refused(2));
    };
    if images.len() != schema.objects() {
        return Err(piece.refused(2));
    }
    map_between(schema, piece, from, to, PartMap::from_lists(images))
}
