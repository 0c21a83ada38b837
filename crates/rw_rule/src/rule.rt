//! Rewriting rules.

ghost use Rattle.std.specs.Prelude.{◌≡◌, ◌<◌, ◌^◌, IfOk, IfSome, None, false, length};
ghost use Rattle.rw_schema.specs.Presentation.{signature_of};
ghost use Rattle.rw_rule.specs.RuleFaults.{AreOver, BuildsRule, BuildsUnlessCyclic, IsRuleOver, built, monic_of, rule_fault};
ghost use Rattle.rw_rule.specs.RuleParts.{goal_of_parts, rule_of_parts};
ghost use Rattle.rw_terms.specs.OpEntries.{entries};

use crate::check::first_fault;
use crate::cycle::is_cyclic_sqpo;
use crate::{Goal, RuleFault, RuleKind, RuleParts, SetCell};
use rw_pattern::Pattern;
use rw_schema::{OutOfMemory, PartMap, Schema, Text};
use rw_terms::OpTable;
use std::alloc::Global;
use std::marker::Model;

/// A rewriting rule: a span of patterns, with maps from the kept pattern to the left one, which is matched, and to
/// the right one, which stands there afterwards. Cells of the right one may be set to the values of terms over what the
/// left one's cells hold.
///
/// Brown, Patterson, Hanks and Fairbanks, "Computational category-theoretic rewriting" (2022), rewrite C-sets by
/// such spans.
#[derive(Drop)]
pub struct Rule {
    name: Text,
    kind: RuleKind,
    goal: Goal,
    keep: Pattern,
    right: Pattern,
    sets: Vec<SetCell>,
    l: PartMap,
    r: PartMap,
}

impl Model for Rule {
    ghost use Rattle.rw_rule.specs.RuleLists.{RuleLists};
    ghost use Rattle.rw_rule.specs.RuleParts.{goal_of_parts};
    ghost use Rattle.rw_terms.specs.contracts.term.Term as term;
    ghost use Rattle.std.specs.Coded.{codes};

    ghost Value = { RuleLists };

    ghost coded = { Prim.hlevel (codes, term.the_row.coded) };

    ghost view = { λ rule. record {
      name = rule.name;
      kind = rule.kind;
      goal = goal_of_parts rule.goal;
      keep = rule.keep;
      right = rule.right;
      sets = rule.sets.items;
      l = rule.l;
      r = rule.r;
    } };
}

impl Rule {
    /// Builds a rule over the schema that the patterns are over; its terms name operations of the table by their
    /// numbers. The first condition that fails is answered, at its least place. In a sesqui-pushout rule all objects are
    /// monic, whatever was given. The stack grows with the depth of the terms.
    pub fn build(
        alloc: Global,
        schema: &Schema,
        parts: RuleParts,
        ops: &OpTable,
    ) -> Result<Rule, RuleFault>
        requires over { AreOver (signature_of schema.now) (rule_of_parts parts) }
        requires few { length parts.sets.items < 2 ^ 32 }
        ensures builds { BuildsRule (signature_of schema.now) (length (entries ops.now)) (rule_of_parts parts) result }
        ensures over { IfOk result (IsRuleOver (signature_of schema.now) (length (entries ops.now))) }
    {
        match first_fault(alloc, schema, &parts, ops.len())? {
            Some(fault) => Err(fault),
            None => Ok(Rule::of_parts(parts)),
        }
    }

    /// The rule of parts whose conditions are known to hold, but for one that is looked at here: none exactly where they
    /// are a sesqui-pushout rule and arrows of the schema lead round a cycle. So a caller that checks conditions one by
    /// one, as a reading does, has them checked once. The conditions were checked with this table of operations; nothing
    /// is looked up in it. Memory is taken to look for a cycle alone.
    pub fn of_checked(
        alloc: Global,
        schema: &Schema,
        parts: RuleParts,
        ops: &OpTable,
    ) -> Result<Option<Rule>, OutOfMemory>
        requires over { AreOver (signature_of schema.now) (rule_of_parts parts) }
        requires sound { rule_fault (signature_of schema.now) (length (entries ops.now)) false (rule_of_parts parts) ≡ None }
        ensures builds { IfOk result (BuildsUnlessCyclic (signature_of schema.now) (length (entries ops.now)) (rule_of_parts parts)) }
        ensures over { IfOk result (λ found. IfSome found (IsRuleOver (signature_of schema.now) (length (entries ops.now)))) }
    {
        let _ops = ops;
        if is_cyclic_sqpo(alloc, schema, parts.kind)? {
            return Ok(None);
        }
        Ok(Some(Rule::of_parts(parts)))
    }

    /// The rule of the parts. Whether they are a rule is not looked at here.
    fn of_parts(parts: RuleParts) -> Rule
        ensures { result ≡ built (rule_of_parts parts) }
    {
        let RuleParts {
            name,
            kind,
            mut goal,
            keep,
            right,
            sets,
            l,
            r,
        } = parts;
        make_monic(kind, &mut goal.monic);
        Rule {
            name,
            kind,
            goal,
            keep,
            right,
            sets,
            l,
            r,
        }
    }

    pub fn name(&self) -> &Text
        ensures { result.now ≡ self.now.name }
    {
        &self.name
    }

    pub fn kind(&self) -> &RuleKind
        ensures { result.now ≡ self.now.kind }
    {
        &self.kind
    }

    /// What the rule looks for.
    pub fn goal(&self) -> &Goal
        ensures { goal_of_parts result.now ≡ self.now.goal }
    {
        &self.goal
    }

    /// What is kept of what is matched.
    pub fn keep(&self) -> &Pattern
        ensures { result.now ≡ self.now.keep }
    {
        &self.keep
    }

    /// What stands there afterwards.
    pub fn right(&self) -> &Pattern
        ensures { result.now ≡ self.now.right }
    {
        &self.right
    }

    /// The cells of the right pattern that a step sets.
    pub fn sets(&self) -> &Vec<SetCell>
        ensures { result.now.items ≡ self.now.sets }
    {
        &self.sets
    }

    /// The map from the kept pattern to the left one.
    pub fn l(&self) -> &PartMap
        ensures { result.now ≡ self.now.l }
    {
        &self.l
    }

    /// The map from the kept pattern to the right one.
    pub fn r(&self) -> &PartMap
        ensures { result.now ≡ self.now.r }
    {
        &self.r
    }
}

/// In a sesqui-pushout rule, makes all objects monic.
fn make_monic(kind: RuleKind, monic: &mut Vec<bool>)
    ensures { monic.new.items ≡ monic_of kind monic.old.items }
{
    if kind.is_sqpo() {
        monic.fill(true);
    }
}
