//! Patterns without their entries, beside the entries.

ghost use Rattle.std.specs.Prelude.{◌≡◌, ◌<◌, ◌&&◌, [], All, length, map, nat_le};
ghost use Rattle.std.specs.List.{list_all};
ghost use Rattle.serde_json.specs.View.{view};
ghost use Rattle.rw_schema.specs.Presentation.{signature_of};
ghost use Rattle.rw_doc.specs.Gives.{Gives};
ghost use Rattle.rw_docpattern.specs.Bare.{lists_of};
ghost use Rattle.rw_docpattern.specs.Drafts as spec;
ghost use Rattle.rw_docpattern.specs.Drafts.{draft_seen};
ghost use Rattle.rw_docpattern.specs.Patterns.{is_on_part};
ghost use Rattle.rw_docpattern.specs.Terms as terms;
ghost use Rattle.rw_docpattern.specs.Views.{form_of};

use crate::bare::{Bare, bare_of};
use crate::checks::{are_on_parts, are_within_limits, do_atoms_fit};
use crate::forms::{Form, form_with};
use crate::named::entries_named;
use crate::{Entry, WrittenEntry};
use rw_doc::{Piece, ReadDocEnd};
use rw_pattern::Pattern;
use rw_schema::Schema;
use serde_json::Value;
use std::alloc::Global;

/// A pattern without its entries, and the entries.
#[derive(Drop)]
pub struct Draft {
    pub bare: Pattern,
    pub entries: Vec<Entry>,
}

/// Whether the parts and the entries are few enough, and the terms within the limits.
fn is_within_limits(bare: &Bare, entries: &[WrittenEntry]) -> bool
    ensures { result ≡ (bare.now.few && nat_le (length entries.now) 256 && list_all (λ entry. terms.is_within_limits entry.term) entries.now) }
{
    bare.few && are_within_limits(entries)
}

/// Whether each image and each entry's part is there.
fn are_parts_there(schema: &Schema, bare: &Bare, sizes: &[u32], entries: &[Entry]) -> bool
    requires { All (λ entry. entry.attr.0 < length schema.now.attributes) entries.now }
    ensures { result ≡ (bare.now.in_range && list_all (is_on_part (lists_of (signature_of schema.now) sizes.now [])) entries.now) }
{
    bare.in_range && are_on_parts(schema, sizes, entries)
}

/// The entries of the form with these lists, or the first fault but those of equations and of what may stand in a term.
fn entries_of(
    alloc: Global,
    schema: &Schema,
    piece: Piece,
    bare: &Bare,
    sizes: &[u32],
    entries: Vec<WrittenEntry>,
) -> Result<Vec<Entry>, ReadDocEnd>
    ensures { Gives (λ entries. entries.items) result
        (spec.entries_of schema.now piece bare.now.few bare.now.in_range (lists_of (signature_of schema.now) sizes.now []) entries.items) }
{
    if !is_within_limits(bare, entries.as_slice()) {
        return Err(piece.refused(4));
    }
    let Some(entries) = entries_named(alloc, schema, entries)? else {
        return Err(piece.refused(6));
    };
    if !are_parts_there(schema, bare, sizes, entries.as_slice()) {
        return Err(piece.refused(8));
    }
    if !do_atoms_fit(schema, entries.as_slice()) {
        return Err(piece.refused(9));
    }
    Ok(entries)
}

/// The draft of the form, or the first fault but those of what may stand in a term.
pub fn draft_of(
    alloc: Global,
    schema: &Schema,
    piece: Piece,
    form: Form,
) -> Result<Draft, ReadDocEnd>
    ensures { Gives draft_seen result (spec.draft_of schema.now piece (form_of form)) }
{
    let Form {
        sizes,
        rows,
        entries,
    } = form;
    let counts = sizes.as_slice().to_vec(alloc)?;
    let bare = bare_of(alloc, schema, piece, sizes, rows)?;
    let entries = entries_of(alloc, schema, piece, &bare, counts.as_slice(), entries)?;
    match bare.pattern {
        Some(bare) => Ok(Draft { bare, entries }),
        None => Err(piece.refused(10)),
    }
}

/// The draft of the pattern that is written, with no other keys than these.
pub(crate) fn read_draft(
    alloc: Global,
    schema: &Schema,
    piece: Piece,
    keys: &[&str],
    value: &Value,
) -> Result<Draft, ReadDocEnd>
    ensures { Gives draft_seen result (spec.read_draft schema.now piece (map (λ key. key.now) keys.now) (view value.now)) }
{
    match form_with(alloc, keys, value)? {
        Some(form) => draft_of(alloc, schema, piece, form),
        None => Err(piece.refused(2)),
    }
}
