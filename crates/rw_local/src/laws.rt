//! Laws on steps.

ghost use Rattle.std.specs.Prelude.{◌≡◌, length};
ghost use Rattle.rw_schema.specs.Presentation.{signature_of};
ghost use Rattle.rw_rule.specs.RuleFaults.{IsRuleOver};
ghost use Rattle.rw_rule.specs.declared.kind.RuleKind.TheVariants.{Dpo};
ghost use Rattle.rw_terms.specs.OpEntries.{entries};
ghost use Rattle.rw_terms.specs.OpTables.{codes_of};
ghost use Rattle.rw_local.specs.OneVerdict.{GluingsAreChanges, HaveOneVerdict};

use rw_rule::Rule;
use rw_schema::Schema;
use rw_terms::OpTable;

/// Each match of a double-pushout rule has exactly one verdict: there is a step, which a change of the host leaves, or
/// something that obstructs it; there are no two steps, no two obstructions, and never both. The call does nothing that is
/// seen: its contract is the law.
pub fn has_one_verdict(schema: &Schema, rule: &Rule, ops: &OpTable)
    requires rule { IsRuleOver (signature_of schema.now) (length (entries ops.now)) rule.now }
    requires kind { rule.now.kind ≡ Dpo }
    ensures { HaveOneVerdict (signature_of schema.now) (codes_of (entries ops.now)) rule.now }
{
    // That the schema's paths lead where they end is known by its arrows.
    let _arrows = schema.arrow_list();
}

/// A context over its host and a right side have a pushout that a change of the host leaves, whatever kind of step they are
/// of, or there is a first clash, and not even a cocone. The call does nothing: its contract is the law.
pub fn gluings_are_changes()
    ensures { GluingsAreChanges }
{}
