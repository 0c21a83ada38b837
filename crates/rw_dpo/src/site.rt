//! A rule at a match.

ghost use Rattle.std.specs.Prelude.{◌≡◌, ℕ, false, Contains};
ghost use Rattle.rw_schema.specs.Presentation.{signature_of};
ghost use Rattle.rw_pattern.specs.Matches.{matches};
ghost use Rattle.rw_rule.specs.RuleFaults.{IsRuleOver, is_sqpo};
ghost use Rattle.rw_dpo.specs.inner.Site.{IsSite};

use rw_delta::Probe;
use rw_pattern::Tuple;
use rw_rule::Rule;
use rw_schema::Schema;

/// What is known of a rule with an injective map to its left side, at one of its matches. It does nothing at run time.
pub fn known<P: Probe>(schema: &Schema, probe: &P, rule: &Rule, tuple: &Tuple)
    requires probe { P.signature probe.now ≡ signature_of schema.now }
    requires rule { (ops : ℕ) × IsRuleOver (signature_of schema.now) ops rule.now }
    requires kind { is_sqpo rule.now.kind ≡ false }
    requires tuple { Contains (matches (signature_of schema.now) rule.now.goal.left rule.now.goal.monic (P.instance probe.now)) tuple.now }
    ensures { IsSite (P.signature probe.now) rule.now tuple.now (P.instance probe.now) }
{
    probe.known();
    let _arrows = schema.arrow_list();
    let _rule = rule.kind();
    let _tuple = tuple.names();
}
