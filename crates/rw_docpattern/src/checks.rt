//! Whether the entries of a pattern fit it.

ghost use Rattle.std.specs.Prelude.{◌≡◌, ◌<◌, ◌&&◌, [], All, length, nat_le, slice_get, slice_index};
ghost use Rattle.std.specs.List.{list_all};
ghost use Rattle.rw_schema.specs.Atoms.{kind_of};
ghost use Rattle.rw_schema.specs.Presentation.{signature_of};
ghost use Rattle.rw_pattern.specs.PatternFaults.{has_kind as has_kind_in};
ghost use Rattle.rw_docpattern.specs.Bare.{lists_of};
ghost use Rattle.rw_docpattern.specs.Patterns as spec;
ghost use Rattle.rw_docpattern.specs.Terms.{is_within_limits};

use crate::{Entry, WrittenEntry, WrittenTerm};
use rw_schema::{Atom, AttrId, ObjectId, Schema};

/// The greatest number of entries.
const MOST_ENTRIES: usize = 256;

/// Whether each term is within its limits.
fn are_terms_within(entries: &[WrittenEntry]) -> bool
    ensures { result ≡ list_all (λ entry. is_within_limits entry.term) entries.now }
{
    entries.iter().all(|entry| entry.term.is_within_limits())
}

/// Whether the entries are few enough, and their terms within the limits.
pub(crate) fn are_within_limits(entries: &[WrittenEntry]) -> bool
    ensures { result ≡ (nat_le (length entries.now) 256 && list_all (λ entry. is_within_limits entry.term) entries.now) }
{
    entries.len() <= MOST_ENTRIES && are_terms_within(entries)
}

/// The number of parts of an object, or 0 where no number is there.
fn size_of(sizes: &[u32], object: ObjectId) -> u32
    ensures { result ≡ slice_index sizes.now object.0 }
{
    sizes.get(usize::from(object.0)).copied().unwrap_or(0)
}

/// Whether the entry is on a part of its attribute's object.
fn is_on_part(schema: &Schema, sizes: &[u32], entry: &Entry) -> bool
    requires { entry.now.attr.0 < length schema.now.attributes }
    ensures { result ≡ spec.is_on_part (lists_of (signature_of schema.now) sizes.now []) entry.now }
{
    entry.part < size_of(sizes, schema.attr(entry.attr).object)
}

/// Whether each entry is on a part of its attribute's object.
pub(crate) fn are_on_parts(schema: &Schema, sizes: &[u32], entries: &[Entry]) -> bool
    requires { All (λ entry. entry.attr.0 < length schema.now.attributes) entries.now }
    ensures { result ≡ list_all (spec.is_on_part (lists_of (signature_of schema.now) sizes.now [])) entries.now }
{
    for entry in entries {
        if !is_on_part(schema, sizes, entry) {
            return false;
        }
    }
    true
}

/// Whether the atom is of the attribute's kind.
fn has_kind(schema: &Schema, attribute: AttrId, atom: &Atom) -> bool
    requires { attribute.0 < length schema.now.attributes }
    ensures { result ≡ has_kind_in (kind_of atom.now) (slice_get (signature_of schema.now).attributes attribute.0) }
{
    atom.is_of(schema.attr(attribute).kind)
}

/// Whether an atom that is the entry's whole term is of the attribute's kind.
fn fits_atom(schema: &Schema, entry: &Entry) -> bool
    requires { entry.now.attr.0 < length schema.now.attributes }
    ensures { result ≡ spec.fits_atom (signature_of schema.now) entry.now }
{
    match &entry.term {
        WrittenTerm::Const(atom) => has_kind(schema, entry.attr, atom),
        _ => true,
    }
}

/// Whether each atom that is a whole term is of its attribute's kind.
pub(crate) fn do_atoms_fit(schema: &Schema, entries: &[Entry]) -> bool
    requires { All (λ entry. entry.attr.0 < length schema.now.attributes) entries.now }
    ensures { result ≡ list_all (spec.fits_atom (signature_of schema.now)) entries.now }
{
    for entry in entries {
        if !fits_atom(schema, entry) {
            return false;
        }
    }
    true
}
