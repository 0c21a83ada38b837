//! Laws of the matches of double-pushout rules.

ghost use Rattle.std.specs.Prelude.{◌≡◌, length};
ghost use Rattle.rw_schema.specs.Presentation.{signature_of};
ghost use Rattle.rw_rule.specs.RuleFaults.{IsRuleOver};
ghost use Rattle.rw_rule.specs.declared.kind.RuleKind.TheVariants.{Dpo};
ghost use Rattle.rw_terms.specs.OpEntries.{entries};
ghost use Rattle.rw_terms.specs.OpTables.{codes_of};
ghost use Rattle.rw_redex.specs.Laws.{GluingDecides, VerdictsAgree};

use rw_rule::Rule;
use rw_schema::Schema;
use rw_terms::OpTable;

/// A match of a double-pushout rule, injective or not, without identification and dangling has a least pushout complement
/// under the host's names; and one with either has no pushout complement, under any names. The call does nothing that is
/// seen: its contract is the law.
///
/// Ehrig, Pfender and Schneider, "Graph-grammars: an algebraic approach" (1973), have this as the gluing condition.
pub fn gluing_decides(schema: &Schema, rule: &Rule, ops: &OpTable)
    requires rule { IsRuleOver (signature_of schema.now) (length (entries ops.now)) rule.now }
    requires kind { rule.now.kind ≡ Dpo }
    ensures { GluingDecides (signature_of schema.now) rule.now }
{
    // That the schema's paths lead where they end is known by its arrows.
    let _arrows = schema.arrow_list();
}

/// A match of a double-pushout rule has at most one step, names and next names included, at most one first obstruction,
/// and never both. The call does nothing that is seen: its contract is the law.
pub fn verdicts_agree(schema: &Schema, rule: &Rule, ops: &OpTable)
    requires rule { IsRuleOver (signature_of schema.now) (length (entries ops.now)) rule.now }
    requires kind { rule.now.kind ≡ Dpo }
    ensures { VerdictsAgree (signature_of schema.now) (codes_of (entries ops.now)) rule.now }
{
    // That the schema's paths lead where they end is known by its arrows.
    let _arrows = schema.arrow_list();
}
