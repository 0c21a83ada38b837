//! A rule, piece by piece.

ghost use Rattle.std.specs.Prelude.{◌≡◌, ◌<◌, ◌≤◌, ◌^◌, IfOk, false, is_none, is_some, length};
ghost use Rattle.std.specs.List.{list_any};
ghost use Rattle.std.specs.Str.{bytes_eq};
ghost use Rattle.rw_schema.specs.Presentation.{signature_of};
ghost use Rattle.rw_terms.specs.OpEntries.{entries};
ghost use Rattle.rw_rule.specs.RuleFaults.{AreOver};
ghost use Rattle.rw_rule.specs.RuleParts.{rule_of_parts};
ghost use Rattle.rw_rule.specs.Sets.{value_missing};
ghost use Rattle.rw_doc.specs.Gives.{Gives};
ghost use Rattle.rw_docrule.specs.Known.{AreSidesOver, IsRuleUnlessCyclic};
ghost use Rattle.rw_docrule.specs.Members.{members_of_rule};
ghost use Rattle.rw_docrule.specs.Reads.{body_read, head_of_rule, maps_read, rule_read, sides_read};
ghost use Rattle.rw_docrule.specs.Rules as spec;

use crate::heads::{RuleHead, read_rule_head};
use crate::maps::{Maps, read_maps};
use crate::members::RuleMembers;
use crate::sides::{Sides, read_sides, rule_piece};
use rw_doc::ReadDocEnd;
use rw_rule::{Goal, RuleKind, RuleParts, first_value_missing};
use rw_schema::{NameIndex, Schema};
use rw_terms::OpTable;
use std::alloc::Global;

/// The parts of a rule, and whether conditions are written, which are not read yet.
#[derive(Drop)]
pub struct RuleRead {
    pub parts: RuleParts,
    pub has_conditions: bool,
}

/// The patterns and the maps of a rule.
#[derive(Drop)]
struct Body {
    sides: Sides,
    maps: Maps,
}

/// The patterns and the maps of a rule.
fn read_body(
    alloc: Global,
    schema: &Schema,
    ops: &OpTable,
    place: u32,
    kind: RuleKind,
    members: &RuleMembers<'_>,
) -> Result<Body, ReadDocEnd>
    requires { length (entries ops.now) < 2 ^ 32 }
    ensures gives { Gives body_read result (spec.read_body schema.now (entries ops.now) place kind (members_of_rule members.now)) }
    ensures over { IfOk result (λ body. AreSidesOver (signature_of schema.now) (sides_read body.sides)) }
    ensures long { IfOk result (λ body. length body.maps.r ≡ length schema.now.objects) }
{
    let sides = read_sides(alloc, schema, ops, place, members)?;
    let maps = read_maps(alloc, schema, place, kind, &sides, members)?;
    Ok(Body { sides, maps })
}

/// The parts of a rule.
fn parts_of(alloc: Global, head: RuleHead, body: Body) -> RuleParts
    ensures { rule_of_parts result ≡ spec.rule_with (head_of_rule head) (body_read body) }
{
    let RuleHead { name, kind, monic } = head;
    let Sides { left, keep, right } = body.sides;
    let Maps { l, r } = body.maps;
    RuleParts {
        name,
        kind,
        goal: Goal {
            left: left.pattern,
            monic,
            conditions: Vec::new(alloc),
            kinds: left.kinds,
        },
        keep,
        right: right.pattern,
        sets: right.sets,
        l,
        r,
    }
}

/// Whether each attribute of each new part is set.
fn has_values(schema: &Schema, parts: &RuleParts) -> bool
    requires over { AreOver (signature_of schema.now) (rule_of_parts parts.now) }
    requires images { length parts.now.r ≡ length schema.now.objects }
    ensures { result ≡ is_none (value_missing (signature_of schema.now) (rule_of_parts parts.now)) }
{
    first_value_missing(schema, parts).is_none()
}

/// Whether conditions are written.
fn has_conditions(members: &RuleMembers<'_>) -> bool
    ensures { result ≡ is_some (members_of_rule members.now).conditions }
{
    members.conditions.is_some()
}

/// The rule with these members, where these names are taken.
pub(crate) fn read_pieces(
    alloc: Global,
    schema: &Schema,
    ops: &OpTable,
    taken: &NameIndex,
    place: u32,
    members: &RuleMembers<'_>,
) -> Result<RuleRead, ReadDocEnd>
    requires { length (entries ops.now) < 2 ^ 32 }
    ensures gives { Gives rule_read result (spec.read_pieces schema.now (entries ops.now) taken.now place (members_of_rule members.now)) }
    ensures known { IfOk result (λ read. IsRuleUnlessCyclic (signature_of schema.now) (length (entries ops.now)) (rule_of_parts read.parts)) }
    ensures new { IfOk result (λ read. list_any (bytes_eq read.parts.name) taken.now ≡ false) }
{
    let head = read_rule_head(alloc, schema, taken, rule_piece(place, 0), members)?;
    let body = read_body(alloc, schema, ops, place, head.kind, members)?;
    let parts = parts_of(alloc, head, body);
    if !has_values(schema, &parts) {
        return Err(rule_piece(place, 5).refused(14));
    }
    Ok(RuleRead {
        parts,
        has_conditions: has_conditions(members),
    })
}
