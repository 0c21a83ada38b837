//! The three patterns of a rule.

ghost use Rattle.std.specs.Prelude.{◌≡◌, ◌<◌, ◌^◌, IfOk, length};
ghost use Rattle.rw_schema.specs.Presentation.{signature_of};
ghost use Rattle.rw_terms.specs.OpEntries.{entries};
ghost use Rattle.rw_doc.specs.Gives.{Gives};
ghost use Rattle.rw_docrule.specs.Known.{AreSidesOver};
ghost use Rattle.rw_docrule.specs.Members.{members_of_rule};
ghost use Rattle.rw_docrule.specs.Reads.{sides_read};
ghost use Rattle.rw_docrule.specs.Rules as spec;

use crate::members::RuleMembers;
use rw_doc::{Piece, ReadDocEnd};
use rw_docpattern::{PatternRead, RightRead, read_bare_pattern, read_pattern, read_right};
use rw_pattern::Pattern;
use rw_schema::{Schema, Section};
use rw_terms::OpTable;
use std::alloc::Global;

/// The three patterns of a rule.
#[derive(Drop)]
pub(crate) struct Sides {
    pub(crate) left: PatternRead,
    pub(crate) keep: Pattern,
    pub(crate) right: RightRead,
}

/// A piece of a rule.
pub(crate) fn rule_piece(rule: u32, piece: u32) -> Piece
    ensures { result ≡ spec.rule_piece rule piece }
{
    Piece {
        section: Section::Rules,
        first: rule,
        second: piece,
    }
}

/// The three patterns of a rule.
pub(crate) fn read_sides(
    alloc: Global,
    schema: &Schema,
    ops: &OpTable,
    place: u32,
    members: &RuleMembers<'_>,
) -> Result<Sides, ReadDocEnd>
    requires { length (entries ops.now) < 2 ^ 32 }
    ensures gives { Gives sides_read result (spec.read_sides schema.now (entries ops.now) place (members_of_rule members.now)) }
    ensures over { IfOk result (λ sides. AreSidesOver (signature_of schema.now) (sides_read sides)) }
{
    let left = read_pattern(alloc, schema, rule_piece(place, 1), members.left)?;
    let keep = read_bare_pattern(alloc, schema, rule_piece(place, 2), members.keep)?;
    let right = read_right(
        alloc,
        schema,
        ops,
        rule_piece(place, 3),
        &left,
        members.right,
    )?;
    Ok(Sides { left, keep, right })
}
