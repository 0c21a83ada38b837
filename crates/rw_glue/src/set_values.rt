//! The values of a rule's sets.

ghost use Rattle.std.specs.Prelude.{◌≡◌, ℕ, All, IfOk, List, Some, filter, is_some, length, map, option_and_then, true};
ghost use Rattle.rw_schema.specs.Presentation.{signature_of};
ghost use Rattle.rw_spec.specs.Instance.{Instance};
ghost use Rattle.rw_terms.specs.OpEntries.{entries};
ghost use Rattle.rw_terms.specs.OpTables.{codes_of};
ghost use Rattle.rw_terms.specs.Terms.{is_evaluable, value_of};
ghost use Rattle.rw_rule.specs.RuleFaults.{IsRuleOver};
ghost use Rattle.rw_redex.specs.SetValues.{valuation as valuation_at};
ghost use Rattle.rw_glue.specs.Values.{Evaluates};
ghost use Rattle.rw_glue.specs.inner.Refused.{set_told};
ghost use Rattle.rw_glue.specs.declared.set_values.NoValueEnd.TheVariants as ends;

use rw_redex::{first_without_value, set_values};
use rw_rule::{Refusal, Rule};
use rw_schema::{Atom, AttrId, OutOfMemory, Schema};
use rw_terms::{OpTable, Valuation};
use std::alloc::Global;
use std::marker::Model;

/// The values of a rule's sets, in their order.
#[derive(Drop)]
pub struct SetValues {
    values: Vec<Atom>,
}

impl Model for SetValues {
    ghost use Rattle.std.specs.Prelude.{List};
    ghost use Rattle.rw_schema.specs.declared.atom.Atom.{Atom};

    ghost Value = { List Atom };

    ghost view = { λ values. values.values.items };
}

impl SetValues {
    /// The values, in the order of the sets.
    pub fn list(&self) -> &[Atom]
        ensures { result.now ≡ self.now }
    {
        self.values.as_slice()
    }
}

/// Why there are no values.
#[derive(Drop)]
pub enum NoValueEnd {
    /// The set on the cell has no value: the least object of the attribute, right part and attribute.
    NoValue { right_part: u32, attr: AttrId },

    /// No memory was there.
    OutOfMemory,
}

impl From<OutOfMemory> for NoValueEnd {
    ghost from_gives = { λ _ end. end ≡ ends.OutOfMemory };

    fn from(_error: OutOfMemory) -> NoValueEnd {
        NoValueEnd::OutOfMemory
    }
}

/// The values of the rule's sets where its variables have these values, or the first set without one: by the object of its
/// attribute, then its part, and then its attribute. All sets are evaluated. The operations of terms are those of the
/// table, by their numbers.
pub fn values(
    alloc: Global,
    schema: &Schema,
    rule: &Rule,
    valuation: &Valuation,
    ops: &OpTable,
) -> Result<SetValues, NoValueEnd>
    requires rule { IsRuleOver (signature_of schema.now) (length (entries ops.now)) rule.now }
    requires evaluable { All (λ set. is_evaluable (codes_of (entries ops.now)) valuation.now set.term ≡ true) rule.now.sets }
    ensures { (tuple : List ℕ) (X : Instance) → valuation.now ≡ valuation_at rule.now tuple X
        → Evaluates (signature_of schema.now) (codes_of (entries ops.now)) rule.now tuple X result }
{
    let found = set_values(alloc, rule, valuation, ops)?;
    let missing = first_without_value(schema, rule, found.as_slice());
    if let Some((right_part, attr)) = set_in(&missing) {
        return Err(NoValueEnd::NoValue { right_part, attr });
    }
    Ok(SetValues {
        values: present(alloc, found.as_slice())?,
    })
}

/// The part and the attribute of the set of which a refusal tells that it has no value.
fn set_in(refusal: &Option<Refusal>) -> Option<(u32, AttrId)>
    ensures { result ≡ option_and_then set_told refusal.now }
{
    set_of(refusal.as_ref()?)
}

/// The part and the attribute of the set of which the refusal tells so.
fn set_of(refusal: &Refusal) -> Option<(u32, AttrId)>
    ensures { result ≡ set_told refusal.now }
{
    match refusal {
        Refusal::Identification { .. } => None,
        Refusal::Dangling { .. } => None,
        Refusal::NoValue { right_part, attr } => Some((*right_part, *attr)),
        Refusal::TooLarge { .. } => None,
        Refusal::Clash { .. } => None,
    }
}

/// The atoms that are there, in memory of their own.
fn present(alloc: Global, cells: &[Option<Atom>]) -> Result<Vec<Atom>, OutOfMemory>
    ensures { IfOk result (λ atoms. map (λ atom. Some atom) atoms.items ≡ filter is_some cells.now) }
{
    let mut atoms = Vec::new(alloc);
    for cell in cells {
        if let Some(atom) = cell {
            atoms.push(atom.copy(alloc)?)?;
        }
    }
    Ok(atoms)
}
