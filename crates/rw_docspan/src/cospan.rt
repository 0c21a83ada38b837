//! Cospans.

ghost use Rattle.std.specs.Prelude.{◌≡◌, IfOk};
ghost use Rattle.serde_json.specs.View.{view};
ghost use Rattle.rw_schema.specs.Presentation.{signature_of};
ghost use Rattle.rw_doc.specs.Gives.{Gives};
ghost use Rattle.rw_docspan.specs.Frames.{AreOver};
ghost use Rattle.rw_docspan.specs.Spans as spec;
ghost use Rattle.rw_docspan.specs.Views.{keys_of_frame, members_of_frame, cospan_lists, three_lists, two_maps};

use crate::frame::{
    FrameKeys, FrameMembers, Instances, Maps, members_of, piece_of, read_instances,
};
use crate::maps::read_map;
use rw_doc::ReadDocEnd;
use rw_schema::{PartMap, Schema, Section};
use rw_table::Table;
use serde_json::Value;
use std::alloc::Global;

/// A cospan of instances: two homomorphisms into one base.
#[derive(Drop)]
pub struct Cospan {
    pub left: Table,
    pub right: Table,
    pub base: Table,
    pub left_map: PartMap,
    pub right_map: PartMap,
}

/// The keys of a cospan.
fn cospan_keys() -> FrameKeys<'static>
    ensures { keys_of_frame result ≡ spec.cospan_keys }
{
    FrameKeys {
        first: "left",
        second: "right",
        third: "base",
        first_map: "left_map",
        second_map: "right_map",
    }
}

/// The maps into the base.
fn read_maps(
    alloc: Global,
    schema: &Schema,
    members: &FrameMembers<'_>,
    three: &Instances,
) -> Result<Maps, ReadDocEnd>
    requires { AreOver (signature_of schema.now) (three_lists three.now) }
    ensures gives { Gives two_maps result (spec.read_cospan_maps (signature_of schema.now) (members_of_frame members.now) (three_lists three.now)) }
    ensures homs { IfOk result (λ maps. spec.AreCospanMaps (signature_of schema.now) (three_lists three.now) (two_maps maps)) }
{
    let left = piece_of(Section::Cospan, 4);
    let first = read_map(
        alloc,
        schema,
        left,
        &three.first,
        &three.third,
        members.first_map,
    )?;
    let right = piece_of(Section::Cospan, 5);
    let second = read_map(
        alloc,
        schema,
        right,
        &three.second,
        &three.third,
        members.second_map,
    )?;
    Ok(Maps { first, second })
}

/// The cospan of three instances and two maps.
fn cospan_of(three: Instances, maps: Maps) -> Cospan
    ensures { cospan_lists result ≡ spec.cospan_of (three_lists three) (two_maps maps) }
{
    Cospan {
        left: three.first,
        right: three.second,
        base: three.third,
        left_map: maps.first,
        right_map: maps.second,
    }
}

/// The pieces behind the keys.
fn read_pieces(
    alloc: Global,
    schema: &Schema,
    members: &FrameMembers<'_>,
) -> Result<Cospan, ReadDocEnd>
    ensures gives { Gives cospan_lists result (spec.read_cospan_pieces (signature_of schema.now) (members_of_frame members.now)) }
    ensures over { IfOk result (λ cospan. spec.IsCospanOver (signature_of schema.now) (cospan_lists cospan)) }
{
    let three = read_instances(alloc, schema, Section::Cospan, members)?;
    let maps = read_maps(alloc, schema, members, &three)?;
    Ok(cospan_of(three, maps))
}

/// The cospan that the value is, or its first fault: its keys, left, right, base, the map from the left and the map from
/// the right are read in this order, and within each the least code comes first. A cell may be blank. The time and the
/// memory are linear in the value and the parts, up to a logarithm.
pub fn read_cospan(alloc: Global, schema: &Schema, value: &Value) -> Result<Cospan, ReadDocEnd>
    ensures gives { Gives cospan_lists result (spec.read_cospan (signature_of schema.now) (view value.now)) }
    ensures over { IfOk result (λ cospan. spec.IsCospanOver (signature_of schema.now) (cospan_lists cospan)) }
{
    match members_of(cospan_keys(), value) {
        Some(members) => read_pieces(alloc, schema, &members),
        None => Err(piece_of(Section::Cospan, 0).refused(2)),
    }
}
