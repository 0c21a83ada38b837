//! Whether sets fit the left pattern of their rule.

ghost use Rattle.std.specs.Prelude.{◌≡◌, ◌<◌, All, is_none, length};
ghost use Rattle.std.specs.List.{list_all};
ghost use Rattle.rw_schema.specs.Presentation.{signature_of};
ghost use Rattle.rw_terms.specs.OpEntries.{entries as operations};
ghost use Rattle.rw_rule.specs.Sets as rules;
ghost use Rattle.rw_docpattern.specs.Reads.{pattern_read};
ghost use Rattle.rw_docpattern.specs.Sets as spec;

use crate::PatternRead;
use rw_rule::{SetCell, fits_term, is_closed, is_set};
use rw_schema::Schema;
use rw_terms::OpTable;

/// Whether the set has variables of the left pattern alone, and its term fits.
fn fits_left(schema: &Schema, ops: &OpTable, left: &PatternRead, set: &SetCell) -> bool
    requires { set.now.attr.0 < length schema.now.attributes }
    ensures { result ≡ spec.fits_left (signature_of schema.now) (operations ops.now) (pattern_read left.now) set.now }
{
    is_closed(&left.pattern, &set.term) && fits_term(schema, ops.len(), left.kinds.as_slice(), set)
}

/// Whether each set fits.
fn do_fit(schema: &Schema, ops: &OpTable, left: &PatternRead, sets: &[SetCell]) -> bool
    requires { All (λ set. set.attr.0 < length schema.now.attributes) sets.now }
    ensures { result ≡ list_all (spec.fits_left (signature_of schema.now) (operations ops.now) (pattern_read left.now)) sets.now }
{
    for set in sets {
        if !fits_left(schema, ops, left, set) {
            return false;
        }
    }
    true
}

/// Whether no set is on a cell that an earlier one is on. The time is quadratic.
fn are_apart(sets: &[SetCell]) -> bool
    ensures { result ≡ is_none (rules.set_again sets.now) }
{
    for (place, set) in sets.iter().enumerate() {
        if is_set(&sets[..place], set.attr, set.part) {
            return false;
        }
    }
    true
}

/// Whether each set fits, and no cell is set twice.
pub(crate) fn are_sets(schema: &Schema, ops: &OpTable, left: &PatternRead, sets: &[SetCell]) -> bool
    requires { All (λ set. set.attr.0 < length schema.now.attributes) sets.now }
    ensures { result ≡ spec.are_sets (signature_of schema.now) (operations ops.now) (pattern_read left.now) sets.now }
{
    do_fit(schema, ops, left, sets) && are_apart(sets)
}
