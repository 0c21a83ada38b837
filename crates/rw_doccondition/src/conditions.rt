//! The conditions of a rule.

ghost use Rattle.std.specs.Prelude.{◌≡◌, ◌<◌, ◌≤◌, ◌+◌, ◌^◌, IfOk, OnOk, is_none, length, map};
ghost use Rattle.serde_json.specs.View.{view};
ghost use Rattle.rw_schema.specs.Presentation.{signature_of};
ghost use Rattle.rw_pattern.specs.MapFaults.{map_fault};
ghost use Rattle.rw_pattern.specs.PatternFaults.{IsPatternOf, IsPatternOver};
ghost use Rattle.rw_rule.specs.RuleParts.{condition_of_parts};
ghost use Rattle.rw_doc.specs.Gives.{Gives};
ghost use Rattle.rw_docpattern.specs.Drafts.{IsSound, draft_seen};
ghost use Rattle.rw_doccondition.specs.Conditions as spec;
ghost use Rattle.rw_doccondition.specs.Reads.{conditions_seen, known_seen, parts_seen};

use crate::Known;
use crate::forms::form_of_condition;
use crate::known::add_variables;
use crate::parts::{ConditionDraft, parts_of};
use rw_doc::{Piece, ReadDocEnd};
use rw_docpattern::{Draft, cells_of, parts_with, pattern_of};
use rw_pattern::{Pattern, check_map};
use rw_rule::Condition;
use rw_schema::{PartMap, Schema, Section};
use serde_json::Value;
use std::alloc::Global;

/// The conditions of a rule, and the variables of the left side and of the conditions by their numbers.
#[derive(Drop)]
pub struct ConditionsRead {
    pub conditions: Vec<Condition>,
    pub known: Known,
}

/// Whether the images are a map from the left side to the pattern.
fn is_map(schema: &Schema, left: &Pattern, pattern: &Pattern, images: &PartMap) -> bool
    requires left { IsPatternOf (signature_of schema.now) left.now }
    requires pattern { IsPatternOf (signature_of schema.now) pattern.now }
    ensures { result ≡ is_none (map_fault (signature_of schema.now) left.now pattern.now images.now) }
{
    check_map(schema, left, pattern, images).is_ok()
}

/// The pattern of the draft with its entries, whose variables have numbers.
fn pattern_with(
    alloc: Global,
    schema: &Schema,
    piece: Piece,
    draft: Draft,
    known: &Known,
) -> Result<Pattern, ReadDocEnd>
    requires sound { IsSound schema.now (draft_seen draft) }
    requires few { length known.now.names < 2 ^ 32 }
    ensures gives { Gives (λ pattern. pattern) result (spec.pattern_with schema.now piece (known_seen known.now) (draft_seen draft)) }
    ensures over { IfOk result (IsPatternOver (signature_of schema.now) known.now.kinds.items) }
{
    let Draft { bare, entries } = draft;
    let Some(cells) = cells_of(alloc, &known.names, entries)? else {
        return Err(piece.refused(14));
    };
    let parts = parts_with(alloc, schema, &bare, cells)?;
    pattern_of(alloc, schema, piece, parts, known.kinds.as_slice())
}

/// The condition of the parts. Its variables have numbers then.
fn condition_of(
    alloc: Global,
    schema: &Schema,
    piece: Piece,
    left: &Pattern,
    known: &mut Known,
    positive: bool,
    parts: ConditionDraft,
) -> Result<Condition, ReadDocEnd>
    requires left { IsPatternOf (signature_of schema.now) left.now }
    requires sound { IsSound schema.now (draft_seen parts.draft) }
    requires few { length known.old.names + 256 < 2 ^ 32 }
    ensures gives { Gives (λ condition. record { condition = condition_of_parts condition; known = known_seen known.new }) result
        (spec.condition_of schema.now piece left.now (known_seen known.old) positive (parts_seen parts)) }
    ensures few { OnOk result (length known.new.names ≤ length known.old.names + 256) }
{
    let ConditionDraft {
        draft,
        monic,
        images,
    } = parts;
    if !is_map(schema, left, &draft.bare, &images) {
        return Err(piece.refused(11));
    }
    add_variables(alloc, schema, draft.entries.as_slice(), known)?;
    let pattern = pattern_with(alloc, schema, piece, draft, known)?;
    Ok(Condition {
        positive,
        pattern,
        map: images,
        monic,
    })
}

/// The condition that the value is. Its variables have numbers then.
fn read_condition(
    alloc: Global,
    schema: &Schema,
    piece: Piece,
    left: &Pattern,
    known: &mut Known,
    value: &Value,
) -> Result<Condition, ReadDocEnd>
    requires left { IsPatternOf (signature_of schema.now) left.now }
    requires few { length known.old.names + 256 < 2 ^ 32 }
    ensures gives { Gives (λ condition. record { condition = condition_of_parts condition; known = known_seen known.new }) result
        (spec.read_condition schema.now piece left.now (known_seen known.old) (view value.now)) }
    ensures few { OnOk result (length known.new.names ≤ length known.old.names + 256) }
{
    let Some(form) = form_of_condition(alloc, value)? else {
        return Err(piece.refused(2));
    };
    let positive = form.positive;
    let parts = parts_of(alloc, schema, piece, left, form)?;
    condition_of(alloc, schema, piece, left, known, positive, parts)
}

/// The piece of the condition of a rule behind so many.
fn condition_piece(rule: u32, place: u32) -> Piece
    requires { place < 2 ^ 16 }
    ensures { result ≡ spec.condition_piece rule place }
{
    Piece {
        section: Section::Rules,
        first: rule,
        second: 6 + place,
    }
}

/// The conditions of the rule at a place, by the pattern of its left side and its variables, which have the first numbers. Those
/// of each condition are numbered behind them.
pub fn read_conditions(
    alloc: Global,
    schema: &Schema,
    rule: u32,
    left: &Pattern,
    known: Known,
    values: &[Value],
) -> Result<ConditionsRead, ReadDocEnd>
    requires left { IsPatternOf (signature_of schema.now) left.now }
    requires variables { length known.names ≤ 256 }
    requires few { length values.now ≤ 16 }
    ensures gives { Gives conditions_seen result (spec.read_conditions schema.now rule left.now (known_seen known) (map view values.now)) }
{
    let mut known = known;
    let mut conditions = Vec::new(alloc);
    for (place, value) in values.iter().enumerate() {
        let piece = condition_piece(rule, place as u32);
        let condition = read_condition(alloc, schema, piece, left, &mut known, value)?;
        conditions.push(condition)?;
    }
    Ok(ConditionsRead { conditions, known })
}
