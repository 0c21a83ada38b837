//! Laws on steps of single-pushout rules.

ghost use Rattle.std.specs.Prelude.{◌≡◌, length};
ghost use Rattle.rw_schema.specs.Presentation.{signature_of};
ghost use Rattle.rw_rule.specs.RuleFaults.{IsRuleOver};
ghost use Rattle.rw_rule.specs.declared.kind.RuleKind.TheVariants.{Spo};
ghost use Rattle.rw_terms.specs.OpEntries.{entries};
ghost use Rattle.rw_terms.specs.OpTables.{codes_of};
ghost use Rattle.rw_single.specs.OneVerdict.{HaveOneSingleVerdict, LargestPairsAreChanges};

use rw_rule::Rule;
use rw_schema::Schema;
use rw_terms::OpTable;

/// Each match of a single-pushout rule has exactly one verdict: there is a step, which a change of the host leaves, or
/// something that obstructs it; there are no two steps, no two obstructions, and never both. The call does nothing that is
/// seen: its contract is the law.
///
/// Löwe, "Algebraic approach to single-pushout graph transformation" (1993), has a step at each match; here sets may lack a
/// value, names may run out, and atoms may clash.
pub fn has_one_single_verdict(schema: &Schema, rule: &Rule, ops: &OpTable)
    requires rule { IsRuleOver (signature_of schema.now) (length (entries ops.now)) rule.now }
    requires kind { rule.now.kind ≡ Spo }
    ensures { HaveOneSingleVerdict (signature_of schema.now) (codes_of (entries ops.now)) rule.now }
{
    // That the schema's paths lead where they end is known by its arrows.
    let _arrows = schema.arrow_list();
}

/// The largest fitting pair of a host and a right side has an initial partial cocone that a change of the host leaves, or
/// there is a first clash, and no partial cocone with this pair. The call does nothing: its contract is the law.
pub fn largest_pairs_are_changes()
    ensures { LargestPairsAreChanges }
{}
