//! The values of a rule's variables at a match.

ghost use Rattle.std.specs.Prelude.{◌≡◌, ℕ, Contains, IfOk, pos, unwrap_or};
ghost use Rattle.std.specs.Option.{option_map};
ghost use Rattle.rw_schema.specs.declared.atom.Atom.TheVariants.{Int};
ghost use Rattle.rw_pattern.specs.Matches.{matches, value_of as value_at};
ghost use Rattle.rw_rule.specs.RuleFaults.{IsRuleOver};
ghost use Rattle.rw_redex.specs.SetValues.{valuation};
ghost use Rattle.rw_glue.specs.inner.Sides.{HasCells};

use rw_delta::Probe;
use rw_pattern::{Pattern, Tuple};
use rw_redex::first_entry;
use rw_rule::Rule;
use rw_schema::{Atom, OutOfMemory};
use rw_steps::Steps;
use rw_terms::Valuation;
use std::alloc::Global;
use std::sync::ledger::Ledger;

/// The match's values of the variables, in memory of their own; 0 stands for one that is on no cell of the left pattern.
pub fn valuation_of<P: Probe, L: Ledger>(
    alloc: Global,
    rule: &Rule,
    probe: &P,
    tuple: &Tuple,
    steps: &mut Steps<L>,
) -> Result<Valuation, OutOfMemory>
    requires rule { (ops : ℕ) × IsRuleOver (P.signature probe.now) ops rule.now }
    requires tuple { Contains (matches (P.signature probe.now) rule.now.goal.left rule.now.goal.monic (P.instance probe.now)) tuple.now }
    ensures { IfOk result (λ values. values ≡ valuation rule.now tuple.now (P.instance probe.now)) }
{
    let goal = rule.goal();
    let mut values = Vec::new(alloc);
    for variable in 0..goal.kinds.len() {
        values.push(value_of(alloc, &goal.left, probe, tuple, variable, steps)?)?;
    }
    Ok(Valuation::of(values))
}

/// The value of a variable, or 0 where it is on no cell.
fn value_of<P: Probe, L: Ledger>(
    alloc: Global,
    left: &Pattern,
    probe: &P,
    tuple: &Tuple,
    variable: usize,
    steps: &mut Steps<L>,
) -> Result<Atom, OutOfMemory>
    requires { HasCells (P.signature probe.now) (P.instance probe.now) left.now tuple.now }
    ensures { IfOk result (λ value. value ≡ unwrap_or (value_at left.now (P.instance probe.now) tuple.now variable) (Int (pos 0))) }
{
    match atom_of(left, probe, tuple, variable, steps) {
        Some(atom) => atom.copy(alloc),
        None => Ok(Atom::Int(0)),
    }
}

/// The atom that the first entry of a variable falls on.
fn atom_of<'a, P: Probe, L: Ledger>(
    left: &Pattern,
    probe: &'a P,
    tuple: &Tuple,
    variable: usize,
    steps: &mut Steps<L>,
) -> Option<&'a Atom>
    requires { HasCells (P.signature probe.now) (P.instance probe.now) left.now tuple.now }
    ensures { option_map (λ atom. atom.now) result ≡ value_at left.now (P.instance probe.now) tuple.now variable }
{
    let entry = first_entry(left, variable)?;
    probe.cell(entry.attr, tuple.names()[left.cell_place(entry)], steps)
}
