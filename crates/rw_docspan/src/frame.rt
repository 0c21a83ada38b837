//! What spans and cospans have in common: three instances and two maps between them.

ghost use Rattle.std.specs.Prelude.{◌≡◌, IfOk, option_map};
ghost use Rattle.serde_json.specs.View.{view};
ghost use Rattle.rw_schema.specs.Presentation.{signature_of};
ghost use Rattle.rw_doc.specs.Gives.{Gives};
ghost use Rattle.rw_docspan.specs.Frames as spec;
ghost use Rattle.rw_docspan.specs.Views.{keys_of_frame, members_of_frame, three_lists};

use crate::instance::read_instance;
use rw_doc::{Piece, ReadDocEnd, has_only};
use rw_schema::{PartMap, Schema, Section};
use rw_table::Table;
use serde_json::Value;
use std::alloc::Global;

/// The keys of the instances and of the maps.
#[derive(Clone, Copy)]
pub(crate) struct FrameKeys<'k> {
    pub(crate) first: &'k str,
    pub(crate) second: &'k str,
    pub(crate) third: &'k str,
    pub(crate) first_map: &'k str,
    pub(crate) second_map: &'k str,
}

/// What is written at the keys.
#[derive(Clone, Copy)]
pub(crate) struct FrameMembers<'v> {
    pub(crate) first: &'v Value,
    pub(crate) second: &'v Value,
    pub(crate) third: &'v Value,
    pub(crate) first_map: &'v Value,
    pub(crate) second_map: &'v Value,
}

/// The three instances.
#[derive(Drop)]
pub(crate) struct Instances {
    pub(crate) first: Table,
    pub(crate) second: Table,
    pub(crate) third: Table,
}

/// The two maps.
#[derive(Drop)]
pub(crate) struct Maps {
    pub(crate) first: PartMap,
    pub(crate) second: PartMap,
}

/// The members that the value has at the keys.
fn members_in<'v>(keys: FrameKeys<'_>, value: &'v Value) -> Option<FrameMembers<'v>>
    ensures { option_map members_of_frame result ≡ spec.members_in (keys_of_frame keys.entry) (view value.now) }
{
    let first = value.get(keys.first)?;
    let second = value.get(keys.second)?;
    let third = value.get(keys.third)?;
    let first_map = value.get(keys.first_map)?;
    let second_map = value.get(keys.second_map)?;
    Some(FrameMembers {
        first,
        second,
        third,
        first_map,
        second_map,
    })
}

/// The members, where there are no others.
pub(crate) fn members_of<'v>(keys: FrameKeys<'_>, value: &'v Value) -> Option<FrameMembers<'v>>
    ensures { option_map members_of_frame result ≡ spec.members_of (keys_of_frame keys.entry) (view value.now) }
{
    let all = [
        keys.first,
        keys.second,
        keys.third,
        keys.first_map,
        keys.second_map,
    ];
    if has_only(&all, value) {
        members_in(keys, value)
    } else {
        None
    }
}

/// A piece of the section.
pub(crate) fn piece_of(section: Section, piece: u32) -> Piece
    ensures { result ≡ spec.piece_of section piece }
{
    Piece {
        section,
        first: piece,
        second: 0,
    }
}

/// The three instances.
pub(crate) fn read_instances(
    alloc: Global,
    schema: &Schema,
    section: Section,
    members: &FrameMembers<'_>,
) -> Result<Instances, ReadDocEnd>
    ensures gives { Gives three_lists result (spec.read_three (signature_of schema.now) section (members_of_frame members.now)) }
    ensures over { IfOk result (λ three. spec.AreOver (signature_of schema.now) (three_lists three)) }
{
    let first = read_instance(alloc, schema, piece_of(section, 1), members.first)?;
    let second = read_instance(alloc, schema, piece_of(section, 2), members.second)?;
    let third = read_instance(alloc, schema, piece_of(section, 3), members.third)?;
    Ok(Instances {
        first,
        second,
        third,
    })
}
