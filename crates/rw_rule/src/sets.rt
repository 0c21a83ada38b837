//! Whether the cells that a rule sets can be set.

ghost use Rattle.std.specs.Prelude.{◌≡◌, ◌<◌, ◌^◌, [], Some, length};
ghost use Rattle.rw_schema.specs.Presentation.{signature_of, ends_of_attribute};
ghost use Rattle.rw_pattern.specs.PatternFaults.{IsPatternOver};
ghost use Rattle.rw_rule.specs.RuleFaults.{AreOver};
ghost use Rattle.rw_rule.specs.RuleParts.{rule_of_parts};
ghost use Rattle.rw_rule.specs.Sets.{bad_set, fits_set as is_fitting_set, fits_term as is_fitting_term, is_bound as is_bound_in, is_closed as is_closed_over, is_kind_of as is_kind_of_ends, is_on_cell as is_on_that_cell, is_on_part as is_on_part_of, is_set as is_cell_set, set_again, unbound_set};

use crate::{RuleFault, RuleParts, SetCell};
use rw_pattern::Pattern;
use rw_schema::{AttrDef, AttrId, Kind, Schema};
use rw_terms::Term;

/// The greatest number of levels of a term.
pub const MOST_LEVELS: usize = 32;

/// The first set whose term has a variable that is on no cell of the left pattern. The stack grows with the depth of the
/// terms.
pub fn first_unbound_set(parts: &RuleParts) -> Option<RuleFault>
    requires { length parts.now.sets.items < 2 ^ 32 }
    ensures { result ≡ unbound_set (rule_of_parts parts.now) }
{
    for (place, set) in parts.sets.iter().enumerate() {
        if !is_closed(&parts.goal.left, &set.term) {
            return Some(RuleFault::Unbound { set: place as u32 });
        }
    }
    None
}

/// Whether each variable of the term is on a cell of the pattern. The stack grows with the depth of the term.
pub fn is_closed(left: &Pattern, term: &Term) -> bool
    ensures { result ≡ is_closed_over left.now term.now }
{
    match term {
        Term::Const(_) => true,
        Term::Var(variable) => is_bound(left, *variable),
        Term::Op(_, first, second) => {
            is_closed(left, first.get()) && is_closed(left, second.get())
        }
    }
}

/// Whether the variable is on a cell of the pattern.
fn is_bound(left: &Pattern, variable: u32) -> bool
    ensures { result ≡ is_bound_in left.now variable }
{
    left.first_of(variable).is_some()
}

/// The first set that is on no part, or whose term does not fit. The stack grows with the depth of the terms.
pub fn first_bad_set(schema: &Schema, parts: &RuleParts, ops: usize) -> Option<RuleFault>
    requires over { AreOver (signature_of schema.now) (rule_of_parts parts.now) }
    requires few { length parts.now.sets.items < 2 ^ 32 }
    ensures { result ≡ bad_set (signature_of schema.now) ops (rule_of_parts parts.now) }
{
    for (place, set) in parts.sets.iter().enumerate() {
        if !fits(schema, parts, ops, set) {
            return Some(RuleFault::BadTerm { set: place as u32 });
        }
    }
    None
}

/// Whether the set is on a part, and its term fits.
fn fits(schema: &Schema, parts: &RuleParts, ops: usize, set: &SetCell) -> bool
    requires over { AreOver (signature_of schema.now) (rule_of_parts parts.now) }
    requires attribute { set.now.attr.0 < length schema.now.attributes }
    ensures { result ≡ is_fitting_set (signature_of schema.now) ops (rule_of_parts parts.now) set.now }
{
    is_on_part(schema, &parts.right, set)
        && fits_term(schema, ops, parts.goal.kinds.as_slice(), set)
}

/// Whether the set is on a part of the pattern.
fn is_on_part(schema: &Schema, right: &Pattern, set: &SetCell) -> bool
    requires right { IsPatternOver (signature_of schema.now) [] right.now }
    requires attribute { set.now.attr.0 < length schema.now.attributes }
    ensures { result ≡ is_on_part_of right.now set.now }
{
    let object = schema.attr(set.attr).object;
    set.part < right.size(object)
}

/// Whether the term has the kind of the attribute, and is not too deep.
pub fn fits_term(schema: &Schema, ops: usize, kinds: &[Kind], set: &SetCell) -> bool
    requires { set.now.attr.0 < length schema.now.attributes }
    ensures { result ≡ is_fitting_term (signature_of schema.now) ops kinds.now set.now }
{
    let attribute = schema.attr(set.attr);
    is_kind_of(attribute, set.term.kind(kinds, ops)) && set.term.is_within(MOST_LEVELS)
}

/// Whether the kind is there, and is that of the attribute.
fn is_kind_of(attribute: &AttrDef, kind: Option<Kind>) -> bool
    ensures { result ≡ is_kind_of_ends (Some (ends_of_attribute attribute.now)) kind }
{
    match kind {
        Some(kind) => kind.is(attribute.kind),
        None => false,
    }
}

/// The first set on a cell that an earlier one is on. The time is quadratic.
pub fn first_set_again(sets: &[SetCell]) -> Option<RuleFault>
    requires { length sets.now < 2 ^ 32 }
    ensures { result ≡ set_again sets.now }
{
    for (place, set) in sets.iter().enumerate() {
        if is_set(&sets[..place], set.attr, set.part) {
            return Some(RuleFault::SetTwice { set: place as u32 });
        }
    }
    None
}

/// Whether a set is on the cell.
pub fn is_set(sets: &[SetCell], attr: AttrId, part: u32) -> bool
    ensures { result ≡ is_cell_set sets.now attr.0 part }
{
    sets.iter().any(|set| is_on_cell(attr, part, set))
}

/// Whether the set is on the cell.
fn is_on_cell(attr: AttrId, part: u32, set: &SetCell) -> bool
    ensures { result ≡ is_on_that_cell attr.0 part set.now }
{
    set.attr.0 == attr.0 && set.part == part
}
