//! The first pieces of rules: their names, kinds and monic objects.

ghost use Rattle.std.specs.Prelude.{◌≡◌, false, IfOk, length, option_and_then, option_map};
ghost use Rattle.std.specs.List.{list_any};
ghost use Rattle.std.specs.Str.{bytes_eq};
ghost use Rattle.serde_json.specs.Find.{as_str};
ghost use Rattle.serde_json.specs.View.{view};
ghost use Rattle.rw_doc.specs.Gives.{Gives};
ghost use Rattle.rw_docrule.specs.Heads as spec;
ghost use Rattle.rw_docrule.specs.Members.{members_of_rule};
ghost use Rattle.rw_docrule.specs.Reads.{form_of_rule, head_of_rule};

use crate::members::RuleMembers;
use rw_doc::{Piece, ReadDocEnd, has_name_length, items_of};
use rw_docpattern::{read_monic, texts_or_none};
use rw_rule::RuleKind;
use rw_schema::{NameIndex, OutOfMemory, Schema, Text};
use serde_json::Value;
use std::alloc::Global;

/// The greatest number of conditions.
const MOST_CONDITIONS: usize = 16;

/// What a rule's own piece is written in.
#[derive(Drop)]
struct HeadForm {
    name: Text,
    kind: RuleKind,
    monic: Vec<Text>,
    conditions: usize,
}

/// The name and the kind of a rule, and of each object whether it is monic.
#[derive(Drop)]
pub(crate) struct RuleHead {
    pub(crate) name: Text,
    pub(crate) kind: RuleKind,
    pub(crate) monic: Vec<bool>,
}

/// The kind with the name.
fn kind_named(name: &str) -> Option<RuleKind>
    ensures { result ≡ spec.kind_named name.now }
{
    match name {
        "dpo" => Some(RuleKind::Dpo),
        "spo" => Some(RuleKind::Spo),
        "sqpo" => Some(RuleKind::Sqpo),
        _ => None,
    }
}

/// The kind that the value names.
fn kind_of(value: &Value) -> Option<RuleKind>
    ensures { result ≡ option_and_then spec.kind_named (as_str (view value.now)) }
{
    kind_named(value.as_str()?)
}

/// How many conditions are written.
fn conditions_or_none(value: Option<&Value>) -> Option<usize>
    ensures { result ≡ spec.conditions_or_none (option_map (λ value. view value.now) value.entry) }
{
    match value {
        Some(value) => Some(items_of(value)?.len()),
        None => Some(0),
    }
}

/// The form of a rule's own piece, if the members have it.
fn rule_form(alloc: Global, members: &RuleMembers<'_>) -> Result<Option<HeadForm>, OutOfMemory>
    ensures { IfOk result (λ form. option_map form_of_rule form ≡ spec.head_form (members_of_rule members.now)) }
{
    let Some(name) = members.name.as_str() else {
        return Ok(None);
    };
    let Some(kind) = kind_of(members.kind) else {
        return Ok(None);
    };
    let Some(monic) = texts_or_none(alloc, members.monic)? else {
        return Ok(None);
    };
    let Some(conditions) = conditions_or_none(members.conditions) else {
        return Ok(None);
    };
    let name = Text::of(alloc, name)?;
    Ok(Some(HeadForm {
        name,
        kind,
        monic,
        conditions,
    }))
}

/// A rule's own piece, where these names are taken.
pub(crate) fn read_rule_head(
    alloc: Global,
    schema: &Schema,
    taken: &NameIndex,
    piece: Piece,
    members: &RuleMembers<'_>,
) -> Result<RuleHead, ReadDocEnd>
    ensures gives { Gives head_of_rule result (spec.read_rule_head schema.now.objects taken.now piece (members_of_rule members.now)) }
    ensures new { IfOk result (λ head. list_any (bytes_eq head.name) taken.now ≡ false) }
    ensures long { IfOk result (λ head. length head.monic.items ≡ length schema.now.objects) }
{
    let Some(form) = rule_form(alloc, members)? else {
        return Err(piece.refused(2));
    };
    if !(has_name_length(form.name.as_str()) && form.conditions <= MOST_CONDITIONS) {
        return Err(piece.refused(4));
    }
    if taken.has(form.name.as_str()) {
        return Err(piece.refused(5));
    }
    let monic = read_monic(alloc, schema, piece, form.monic.as_slice())?;
    Ok(RuleHead {
        name: form.name,
        kind: form.kind,
        monic,
    })
}
