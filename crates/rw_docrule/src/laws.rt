//! Laws that tell what the first faults of rules are.

ghost use Rattle.rw_docrule.specs.RuleCodes.{FirstRuleFault, FirstRulesFault};

/// A reading of a rule gives a value where nothing is wrong with its pieces, and else the least code of the first piece with
/// a fault; one of the list of rules tells the list's own fault, or that of the first rule with one. The call does nothing:
/// its contract is the law.
pub fn rules_tell_first()
    ensures rule { FirstRuleFault }
    ensures list { FirstRulesFault }
{}
