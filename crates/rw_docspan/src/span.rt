//! Spans.

ghost use Rattle.std.specs.Prelude.{◌≡◌, IfOk};
ghost use Rattle.serde_json.specs.View.{view};
ghost use Rattle.rw_schema.specs.Presentation.{signature_of};
ghost use Rattle.rw_doc.specs.Gives.{Gives};
ghost use Rattle.rw_docspan.specs.Frames.{AreOver};
ghost use Rattle.rw_docspan.specs.Spans as spec;
ghost use Rattle.rw_docspan.specs.Views.{keys_of_frame, members_of_frame, span_lists, three_lists, two_maps};

use crate::frame::{
    FrameKeys, FrameMembers, Instances, Maps, members_of, piece_of, read_instances,
};
use crate::maps::read_map;
use rw_doc::ReadDocEnd;
use rw_schema::{PartMap, Schema, Section};
use rw_table::Table;
use serde_json::Value;
use std::alloc::Global;

/// A span of instances: two homomorphisms out of one apex.
#[derive(Drop)]
pub struct Span {
    pub apex: Table,
    pub left: Table,
    pub right: Table,
    pub to_left: PartMap,
    pub to_right: PartMap,
}

/// The keys of a span.
fn span_keys() -> FrameKeys<'static>
    ensures { keys_of_frame result ≡ spec.span_keys }
{
    FrameKeys {
        first: "apex",
        second: "left",
        third: "right",
        first_map: "to_left",
        second_map: "to_right",
    }
}

/// The maps out of the apex.
fn read_maps(
    alloc: Global,
    schema: &Schema,
    members: &FrameMembers<'_>,
    three: &Instances,
) -> Result<Maps, ReadDocEnd>
    requires { AreOver (signature_of schema.now) (three_lists three.now) }
    ensures gives { Gives two_maps result (spec.read_span_maps (signature_of schema.now) (members_of_frame members.now) (three_lists three.now)) }
    ensures homs { IfOk result (λ maps. spec.AreSpanMaps (signature_of schema.now) (three_lists three.now) (two_maps maps)) }
{
    let left = piece_of(Section::Span, 4);
    let first = read_map(
        alloc,
        schema,
        left,
        &three.first,
        &three.second,
        members.first_map,
    )?;
    let right = piece_of(Section::Span, 5);
    let second = read_map(
        alloc,
        schema,
        right,
        &three.first,
        &three.third,
        members.second_map,
    )?;
    Ok(Maps { first, second })
}

/// The span of three instances and two maps.
fn span_of(three: Instances, maps: Maps) -> Span
    ensures { span_lists result ≡ spec.span_of (three_lists three) (two_maps maps) }
{
    Span {
        apex: three.first,
        left: three.second,
        right: three.third,
        to_left: maps.first,
        to_right: maps.second,
    }
}

/// The pieces behind the keys.
fn read_pieces(
    alloc: Global,
    schema: &Schema,
    members: &FrameMembers<'_>,
) -> Result<Span, ReadDocEnd>
    ensures gives { Gives span_lists result (spec.read_span_pieces (signature_of schema.now) (members_of_frame members.now)) }
    ensures over { IfOk result (λ span. spec.IsSpanOver (signature_of schema.now) (span_lists span)) }
{
    let three = read_instances(alloc, schema, Section::Span, members)?;
    let maps = read_maps(alloc, schema, members, &three)?;
    Ok(span_of(three, maps))
}

/// The span that the value is, or its first fault: its keys, apex, left, right, the map to the left and the map to the
/// right are read in this order, and within each the least code comes first. A cell may be blank. The time and the memory
/// are linear in the value and the parts, up to a logarithm.
pub fn read_span(alloc: Global, schema: &Schema, value: &Value) -> Result<Span, ReadDocEnd>
    ensures gives { Gives span_lists result (spec.read_span (signature_of schema.now) (view value.now)) }
    ensures over { IfOk result (λ span. spec.IsSpanOver (signature_of schema.now) (span_lists span)) }
{
    match members_of(span_keys(), value) {
        Some(members) => read_pieces(alloc, schema, &members),
        None => Err(piece_of(Section::Span, 0).refused(2)),
    }
}
