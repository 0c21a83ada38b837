//! The members of conditions.

ghost use Rattle.std.specs.Prelude.{◌≡◌, option_map};
ghost use Rattle.serde_json.specs.View.{view};
ghost use Rattle.rw_doccondition.specs.Forms as spec;
ghost use Rattle.rw_doccondition.specs.Members.{members_of_condition};

use rw_doc::has_only;
use serde_json::Value;

/// The keys of a condition.
const CONDITION_KEYS: [&str; 4] = ["map", "monic", "pattern", "positive"];

/// What is written of a condition.
#[derive(Clone, Copy)]
pub(crate) struct ConditionMembers<'v> {
    pub(crate) positive: &'v Value,
    pub(crate) pattern: &'v Value,
    pub(crate) images: &'v Value,
    pub(crate) monic: Option<&'v Value>,
}

/// The members of a condition, where there are no others.
pub(crate) fn condition_members(value: &Value) -> Option<ConditionMembers<'_>>
    ensures { option_map members_of_condition result ≡ spec.condition_members (view value.now) }
{
    if !has_only(&CONDITION_KEYS, value) {
        return None;
    }
    let positive = value.get("positive")?;
    let pattern = value.get("pattern")?;
    let images = value.get("map")?;
    Some(ConditionMembers {
        positive,
        pattern,
        images,
        monic: value.get("monic"),
    })
}
