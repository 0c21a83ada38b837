//! The members of rules.

ghost use Rattle.std.specs.Prelude.{◌≡◌, option_map};
ghost use Rattle.serde_json.specs.View.{view};
ghost use Rattle.rw_docrule.specs.Heads as spec;
ghost use Rattle.rw_docrule.specs.Members.{members_of_rule};

use rw_doc::has_only;
use serde_json::Value;

/// The keys of a rule.
const RULE_KEYS: [&str; 9] = [
    "conditions",
    "keep",
    "kind",
    "l",
    "left",
    "monic",
    "name",
    "r",
    "right",
];

/// What is written of a rule.
#[derive(Clone, Copy)]
pub(crate) struct RuleMembers<'v> {
    pub(crate) name: &'v Value,
    pub(crate) kind: &'v Value,
    pub(crate) left: &'v Value,
    pub(crate) keep: &'v Value,
    pub(crate) right: &'v Value,
    pub(crate) l: &'v Value,
    pub(crate) r: &'v Value,
    pub(crate) monic: Option<&'v Value>,
    pub(crate) conditions: Option<&'v Value>,
}

/// The members that a rule must have, and those that it may have.
fn rule_members_in(value: &Value) -> Option<RuleMembers<'_>>
    ensures { option_map members_of_rule result ≡ spec.rule_members_in (view value.now) }
{
    let name = value.get("name")?;
    let kind = value.get("kind")?;
    let left = value.get("left")?;
    let keep = value.get("keep")?;
    let right = value.get("right")?;
    let l = value.get("l")?;
    let r = value.get("r")?;
    Some(RuleMembers {
        name,
        kind,
        left,
        keep,
        right,
        l,
        r,
        monic: value.get("monic"),
        conditions: value.get("conditions"),
    })
}

/// The members of a rule, where there are no others.
pub(crate) fn rule_members(value: &Value) -> Option<RuleMembers<'_>>
    ensures { option_map members_of_rule result ≡ spec.rule_members (view value.now) }
{
    if has_only(&RULE_KEYS, value) {
        rule_members_in(value)
    } else {
        None
    }
}
