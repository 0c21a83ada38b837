//! The kinds of rules: what a step of a rule means.

ghost use Rattle.std.specs.Prelude.{◌≡◌};
ghost use Rattle.rw_rule.specs.RuleFaults.{is_sqpo};

/// The kind of a rule.
#[derive(Clone, Copy, Debug, PartialEq, Eq)]
pub enum RuleKind {
    /// Double pushout (Ehrig, Pfender, Schneider, "Graph-grammars: an algebraic approach", 1973).
    Dpo,
    /// Single pushout (Löwe, "Algebraic approach to single-pushout graph transformation", 1993).
    Spo,
    /// Sesqui-pushout (Corradini, Heindel, Hermann, König, "Sesqui-pushout rewriting", 2006).
    Sqpo,
}

impl RuleKind {
    /// Whether it is that of a sesqui-pushout.
    pub(crate) fn is_sqpo(self) -> bool
        ensures { result ≡ is_sqpo self }
    {
        matches!(self, RuleKind::Sqpo)
    }
}
