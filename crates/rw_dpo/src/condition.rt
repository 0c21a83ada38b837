//! The gluing condition.

ghost use Rattle.std.specs.Prelude.{◌≡◌, ℕ, Contains, MatchOption};
ghost use Rattle.rw_schema.specs.First.{or_else};
ghost use Rattle.rw_schema.specs.Presentation.{signature_of};
ghost use Rattle.rw_pattern.specs.Matches.{matches};
ghost use Rattle.rw_redex.specs.Gluing.{identification};
ghost use Rattle.rw_redex.specs.Instantiated.{redex_of};
ghost use Rattle.rw_redex.specs.Obstructions.{dangling};
ghost use Rattle.rw_rule.specs.RuleFaults.{IsRuleOver};
ghost use Rattle.rw_rule.specs.declared.kind.RuleKind.TheVariants.{Dpo};
ghost use Rattle.rw_dpo.specs.Complements.{HasComplement};

use crate::dangling::first_dangling;
use crate::identification::first_identification;
use crate::site::known;
use rw_delta::Probe;
use rw_pattern::Tuple;
use rw_rule::{Refusal, Rule};
use rw_schema::Schema;
use rw_steps::Steps;
use std::sync::ledger::Ledger;

/// Why there is no pushout complement at the match of a double-pushout rule, or nothing where there is one: the first two
/// parts of one object that the match identifies though they do not both stay, else the first arrow that leads from a part
/// outside the match to a part that is removed, at the least such part. The parts that arrows lead to removed ones are
/// walked, and no others of the host. It takes no memory, and a step for each part that is walked.
///
/// Ehrig, Pfender and Schneider, "Graph-grammars: an algebraic approach" (1973), call the two the identification and the
/// dangling condition.
pub fn gluing<P: Probe, L: Ledger>(
    schema: &Schema,
    probe: &P,
    rule: &Rule,
    tuple: &Tuple,
    steps: &mut Steps<L>,
) -> Option<Refusal>
    requires probe { P.signature probe.now ≡ signature_of schema.now }
    requires rule { (ops : ℕ) × IsRuleOver (signature_of schema.now) ops rule.now }
    requires kind { rule.now.kind ≡ Dpo }
    requires tuple { Contains (matches (signature_of schema.now) rule.now.goal.left rule.now.goal.monic (P.instance probe.now)) tuple.now }
    ensures first { result ≡ or_else (identification rule.now tuple.now) (dangling (signature_of schema.now) rule.now tuple.now (P.instance probe.now)) }
    ensures complement { MatchOption result (HasComplement (signature_of schema.now) (redex_of rule.now tuple.now (P.instance probe.now)))
        (λ refusal. ¬ HasComplement (signature_of schema.now) (redex_of rule.now tuple.now (P.instance probe.now))) }
{
    known(schema, probe, rule, tuple);
    match first_identification(rule, tuple) {
        Some(refusal) => Some(refusal),
        None => first_dangling(schema, probe, rule, tuple, steps),
    }
}
