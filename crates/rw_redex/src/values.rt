//! The values of a rule's sets at a match, and the first set without one.

ghost use Rattle.std.specs.Prelude.{◌≡◌, ◌<◌, ◌==◌, ◌&&◌, ℕ, All, IfOk, List, length, map, true};
ghost use Rattle.rw_schema.specs.First.{first_in};
ghost use Rattle.rw_schema.specs.Presentation.{signature_of};
ghost use Rattle.rw_spec.specs.Instance.{Instance};
ghost use Rattle.rw_terms.specs.declared.code.OpCode as code;
ghost use Rattle.rw_terms.specs.OpEntries.{entries};
ghost use Rattle.rw_terms.specs.OpTables.{codes_of};
ghost use Rattle.rw_terms.specs.Terms.{is_evaluable, value_of};
ghost use Rattle.rw_rule.specs.Images.{parts_of};
ghost use Rattle.rw_rule.specs.Sets.{is_on_cell};
ghost use Rattle.rw_redex.specs.SetValues.{lacks_value as lacks_value_there, no_value, no_value_on, set_values as values_of_sets};

use rw_rule::{Refusal, Rule, SetCell};
use rw_schema::{Atom, AttrDef, AttrId, ObjectId, OutOfMemory, Schema};
use rw_terms::{OpTable, Valuation, eval};
use std::alloc::Global;

/// The values of the sets, in their order, where the variables have the values of the valuation.
pub fn set_values(
    alloc: Global,
    rule: &Rule,
    valuation: &Valuation,
    ops: &OpTable,
) -> Result<Vec<Option<Atom>>, OutOfMemory>
    requires evaluable { All (λ set. is_evaluable (codes_of (entries ops.now)) valuation.now set.term ≡ true) rule.now.sets }
    ensures { IfOk result (λ values. values.items ≡ map (λ set. value_of (codes_of (entries ops.now)) valuation.now set.term) rule.now.sets) }
{
    let mut values = Vec::new(alloc);
    for set in rule.sets() {
        values.push(eval(alloc, &set.term, valuation, ops)?)?;
    }
    Ok(values)
}

/// The first set without a value: by the object of its attribute, then its part, and then its attribute. The values are
/// those of the sets.
pub fn first_without_value(schema: &Schema, rule: &Rule, values: &[Option<Atom>]) -> Option<Refusal>
    requires { length values.now ≡ length rule.now.sets }
    ensures { (codes : List code.OpCode) (tuple : List ℕ) (X : Instance) → values.now ≡ values_of_sets codes rule.now tuple X
        → result ≡ no_value (signature_of schema.now) codes rule.now tuple X }
{
    for (number, _) in rule.right().sizes().iter().enumerate() {
        let object = ObjectId(number as u16);
        if let Some(refusal) = without_value_in(schema, rule, values, object) {
            return Some(refusal);
        }
    }
    None
}

/// The first set without a value on a part of the object.
fn without_value_in(
    schema: &Schema,
    rule: &Rule,
    values: &[Option<Atom>],
    object: ObjectId,
) -> Option<Refusal>
    requires values { length values.now ≡ length rule.now.sets }
    requires object { object.0 < length rule.now.right.sizes }
    ensures { (codes : List code.OpCode) (tuple : List ℕ) (X : Instance) → values.now ≡ values_of_sets codes rule.now tuple X
        → result ≡ first_in (λ place part. no_value_on (signature_of schema.now) codes rule.now tuple X object.0 part) 0 (parts_of rule.now.right object.0) }
{
    for part in 0..rule.right().size(object) {
        if let Some(refusal) = without_value_on(schema, rule, values, object, part) {
            return Some(refusal);
        }
    }
    None
}

/// The first set without a value on the part.
fn without_value_on(
    schema: &Schema,
    rule: &Rule,
    values: &[Option<Atom>],
    object: ObjectId,
    part: u32,
) -> Option<Refusal>
    requires { length values.now ≡ length rule.now.sets }
    ensures { (codes : List code.OpCode) (tuple : List ℕ) (X : Instance) → values.now ≡ values_of_sets codes rule.now tuple X
        → result ≡ no_value_on (signature_of schema.now) codes rule.now tuple X object.0 part }
{
    for (number, ends) in schema.attribute_list().iter().enumerate() {
        let attr = AttrId(number as u16);
        if lacks_value_of(rule, values, object, ends, attr, part) {
            return Some(Refusal::NoValue {
                right_part: part,
                attr,
            });
        }
    }
    None
}

/// Whether the attribute is one of the object, and a set on the part's cell has no value.
fn lacks_value_of(
    rule: &Rule,
    values: &[Option<Atom>],
    object: ObjectId,
    ends: &AttrDef,
    attr: AttrId,
    part: u32,
) -> bool
    requires { length values.now ≡ length rule.now.sets }
    ensures { (codes : List code.OpCode) (tuple : List ℕ) (X : Instance) → values.now ≡ values_of_sets codes rule.now tuple X
        → result ≡ (ends.now.object.0 == object.0 && lacks_value_there codes rule.now tuple X attr.0 part) }
{
    ends.object.0 == object.0 && lacks_value(rule, values, attr, part)
}

/// Whether a set on the cell has no value.
fn lacks_value(rule: &Rule, values: &[Option<Atom>], attr: AttrId, part: u32) -> bool
    requires { length values.now ≡ length rule.now.sets }
    ensures { (codes : List code.OpCode) (tuple : List ℕ) (X : Instance) → values.now ≡ values_of_sets codes rule.now tuple X
        → result ≡ lacks_value_there codes rule.now tuple X attr.0 part }
{
    for (place, set) in rule.sets().iter().enumerate() {
        if is_on(set, attr, part) && values[place].is_none() {
            return true;
        }
    }
    false
}

/// Whether the set is on the cell.
fn is_on(set: &SetCell, attr: AttrId, part: u32) -> bool
    ensures { result ≡ is_on_cell attr.0 part set.now }
{
    set.attr.0 == attr.0 && set.part == part
}
