//! Which rules are plain.

ghost use Rattle.std.specs.Prelude.{◌≡◌, ◌<◌, ◌≤◌, length};
ghost use Rattle.rw_rule.specs.PlainRules.{is_plain as is_plain_rule, is_monic_where_many as is_monic_everywhere, is_single_or_monic as is_single_or_monic_object};

use crate::images::is_one_to_one;
use crate::{Rule, RuleKind};
use rw_pattern::Pattern;

/// Whether the rule is a double-pushout rule without conditions whose map to the right side is injective, and so is
/// every match of the left side. It takes no memory.
pub fn is_plain(rule: &Rule) -> bool
    requires images { length rule.now.keep.sizes ≤ length rule.now.r }
    requires monic { length rule.now.goal.monic ≤ length rule.now.goal.left.sizes }
    ensures { result ≡ is_plain_rule rule.now }
{
    let goal = rule.goal();
    matches!(rule.kind(), RuleKind::Dpo)
        && goal.conditions.is_empty()
        && is_one_to_one(rule.keep(), rule.r())
        && is_monic_where_many(&goal.left, goal.monic.as_slice())
}

/// Whether each object with two parts or more is monic.
fn is_monic_where_many(pattern: &Pattern, monic: &[bool]) -> bool
    requires { length monic.now ≤ length pattern.now.sizes }
    ensures { result ≡ is_monic_everywhere pattern.now monic.now }
{
    for (object, monic) in monic.iter().enumerate() {
        if !is_single_or_monic(pattern, object, *monic) {
            return false;
        }
    }
    true
}

/// Whether the object is monic or has at most one part.
fn is_single_or_monic(pattern: &Pattern, object: usize, monic: bool) -> bool
    requires { object < length pattern.now.sizes }
    ensures { result ≡ is_single_or_monic_object pattern.now object monic }
{
    monic || pattern.sizes()[object] <= 1
}
