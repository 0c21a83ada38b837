//! The two maps of a rule.

ghost use Rattle.std.specs.Prelude.{◌≡◌, IfOk, length};
ghost use Rattle.rw_schema.specs.Presentation.{signature_of};
ghost use Rattle.rw_doc.specs.Gives.{Gives};
ghost use Rattle.rw_docrule.specs.Known.{AreSidesOver};
ghost use Rattle.rw_docrule.specs.Members.{members_of_rule};
ghost use Rattle.rw_docrule.specs.Reads.{maps_read, sides_read};
ghost use Rattle.rw_docrule.specs.Rules as spec;

use crate::members::RuleMembers;
use crate::sides::{Sides, rule_piece};
use rw_doc::ReadDocEnd;
use rw_docpattern::read_map;
use rw_rule::{RuleKind, is_one_to_one};
use rw_schema::{PartMap, Schema};
use std::alloc::Global;

/// The two maps of a rule, from the kept pattern to the left one and to the right one.
#[derive(Drop)]
pub(crate) struct Maps {
    pub(crate) l: PartMap,
    pub(crate) r: PartMap,
}

/// The map to the left, which is injective but in a sesqui-pushout rule.
fn read_l(
    alloc: Global,
    schema: &Schema,
    place: u32,
    kind: RuleKind,
    sides: &Sides,
    members: &RuleMembers<'_>,
) -> Result<PartMap, ReadDocEnd>
    requires { AreSidesOver (signature_of schema.now) (sides_read sides.now) }
    ensures { Gives (λ images. images) result (spec.read_l schema.now place kind (sides_read sides.now) (members_of_rule members.now)) }
{
    let piece = rule_piece(place, 4);
    let images = read_map(
        alloc,
        schema,
        piece,
        &sides.keep,
        &sides.left.pattern,
        members.l,
    )?;
    if matches!(kind, RuleKind::Sqpo) || is_one_to_one(&sides.keep, &images) {
        Ok(images)
    } else {
        Err(piece.refused(12))
    }
}

/// The map to the right.
fn read_r(
    alloc: Global,
    schema: &Schema,
    place: u32,
    sides: &Sides,
    members: &RuleMembers<'_>,
) -> Result<PartMap, ReadDocEnd>
    requires { AreSidesOver (signature_of schema.now) (sides_read sides.now) }
    ensures gives { Gives (λ images. images) result (spec.read_r schema.now place (sides_read sides.now) (members_of_rule members.now)) }
    ensures long { IfOk result (λ images. length images ≡ length schema.now.objects) }
{
    read_map(
        alloc,
        schema,
        rule_piece(place, 5),
        &sides.keep,
        &sides.right.pattern,
        members.r,
    )
}

/// Both maps, between these patterns.
pub(crate) fn read_maps(
    alloc: Global,
    schema: &Schema,
    place: u32,
    kind: RuleKind,
    sides: &Sides,
    members: &RuleMembers<'_>,
) -> Result<Maps, ReadDocEnd>
    requires { AreSidesOver (signature_of schema.now) (sides_read sides.now) }
    ensures gives { Gives maps_read result (spec.read_maps schema.now place kind (sides_read sides.now) (members_of_rule members.now)) }
    ensures long { IfOk result (λ maps. length maps.r ≡ length schema.now.objects) }
{
    let l = read_l(alloc, schema, place, kind, sides, members)?;
    let r = read_r(alloc, schema, place, sides, members)?;
    Ok(Maps { l, r })
}
