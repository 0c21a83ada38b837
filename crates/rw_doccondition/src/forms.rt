//! What is written of conditions.

ghost use Rattle.std.specs.Prelude.{◌≡◌, IfOk, option_map};
ghost use Rattle.serde_json.specs.View.{view};
ghost use Rattle.rw_doc.specs.Numbers.{as_number_lists as number_lists_in};
ghost use Rattle.rw_doccondition.specs.Forms as spec;
ghost use Rattle.rw_doccondition.specs.Members.{members_of_condition};
ghost use Rattle.rw_doccondition.specs.Reads.{form_seen};

use crate::members::{ConditionMembers, condition_members};
use rw_doc::as_number_lists;
use rw_docpattern::{Form, form_with, texts_or_none};
use rw_schema::{OutOfMemory, PartMap, Text};
use serde_json::Value;
use std::alloc::Global;

/// The keys of a pattern with entries.
const PATTERN_KEYS: [&str; 3] = ["cells", "parts", "rows"];

/// Whether a condition is positive, what is written of its pattern, the images of its map, and the names of its monic objects.
#[derive(Drop)]
pub(crate) struct ConditionForm {
    pub(crate) positive: bool,
    pub(crate) pattern: Form,
    pub(crate) images: PartMap,
    pub(crate) monic: Vec<Text>,
}

/// The lists of images that the value is.
fn images_of(alloc: Global, value: &Value) -> Result<Option<PartMap>, OutOfMemory>
    ensures { IfOk result (λ images. images ≡ number_lists_in (view value.now)) }
{
    match as_number_lists(alloc, value)? {
        Some(lists) => Ok(Some(PartMap::from_lists(lists))),
        None => Ok(None),
    }
}

/// The form of the condition with these members, or nothing where they are none.
fn form_from(
    alloc: Global,
    members: &ConditionMembers<'_>,
) -> Result<Option<ConditionForm>, OutOfMemory>
    ensures { IfOk result (λ form. option_map form_seen form ≡ spec.condition_form (members_of_condition members.now)) }
{
    let Some(positive) = members.positive.as_bool() else {
        return Ok(None);
    };
    let Some(pattern) = form_with(alloc, &PATTERN_KEYS, members.pattern)? else {
        return Ok(None);
    };
    let Some(images) = images_of(alloc, members.images)? else {
        return Ok(None);
    };
    let Some(monic) = texts_or_none(alloc, members.monic)? else {
        return Ok(None);
    };
    Ok(Some(ConditionForm {
        positive,
        pattern,
        images,
        monic,
    }))
}

/// The form of the condition that the value is, or nothing where it is none.
pub(crate) fn form_of_condition(
    alloc: Global,
    value: &Value,
) -> Result<Option<ConditionForm>, OutOfMemory>
    ensures { IfOk result (λ form. option_map form_seen form ≡ spec.form_of_condition (view value.now)) }
{
    match condition_members(value) {
        Some(members) => form_from(alloc, &members),
        None => Ok(None),
    }
}
