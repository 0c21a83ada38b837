//! Names that stay under a change and have nothing written anew beside them.

ghost use Rattle.std.specs.Prelude.{◌≡◌, true, [], ◌∷◌, filter, MatchOption};
ghost use Rattle.rw_spec.specs.Ascending.{ascends};
ghost use Rattle.rw_columns.specs.Changes.{entry_names};
ghost use Rattle.rw_columns.specs.inner.Walks.{walk_list, is_kept};

use crate::entries::has_entry;
use rw_column::Walk;
use rw_table::has_name;
use std::marker::Model;

/// What is left of a walk over old names, without those that go and those that are written anew.
#[derive(Drop)]
pub struct Staying<'a> {
    walk: Option<Walk<'a>>,
    removed: &'a [u32],
    rows: &'a [(u32, u32)],
}

impl<'a> Model for Staying<'a> {
    ghost use Rattle.std.specs.Prelude.{◌≡◌, true, List, ℕ, filter};
    ghost use Rattle.rw_spec.specs.Ascending.{ascends};
    ghost use Rattle.rw_columns.specs.Changes.{entry_names};
    ghost use Rattle.rw_columns.specs.inner.Walks.{walk_list, is_kept};

    ghost Value = { List ℕ };

    ghost view = { λ staying. filter (is_kept staying.removed.now staying.rows.now) (walk_list staying.walk) };

    ghost invariant = { λ staying. (ascends staying.removed.now ≡ true) × (ascends (entry_names staying.rows.now) ≡ true) };
}

impl<'a> Staying<'a> {
    /// Of the names of the walk, those that are not removed and not among the rows.
    pub fn new(walk: Option<Walk<'a>>, removed: &'a [u32], rows: &'a [(u32, u32)]) -> Staying<'a>
        requires removed { ascends removed.now ≡ true }
        requires rows { ascends (entry_names rows.now) ≡ true }
        ensures { result ≡ filter (is_kept removed.now rows.now) (walk_list walk.entry) }
    {
        Staying {
            walk,
            removed,
            rows,
        }
    }

    /// All names of the walk.
    pub fn all(walk: Walk<'a>) -> Staying<'a>
        ensures { result ≡ walk.entry }
    {
        Staying::new(Some(walk), &[], &[])
    }

    /// The next name, or nothing at the end.
    pub fn next(&mut self) -> Option<u32>
        ensures { MatchOption result ((self.old ≡ []) × (self.new ≡ [])) (λ name. self.old ≡ name ∷ self.new) }
    {
        next_kept(&mut self.walk, self.removed, self.rows)
    }
}

/// The next name of the walk that is kept, or nothing at the end.
fn next_kept(walk: &mut Option<Walk<'_>>, removed: &[u32], rows: &[(u32, u32)]) -> Option<u32>
    requires removed { ascends removed.now ≡ true }
    requires rows { ascends (entry_names rows.now) ≡ true }
    ensures { MatchOption result ((filter (is_kept removed.now rows.now) (walk_list walk.old) ≡ []) × (filter (is_kept removed.now rows.now) (walk_list walk.new) ≡ [])) (λ name. filter (is_kept removed.now rows.now) (walk_list walk.old) ≡ name ∷ filter (is_kept removed.now rows.now) (walk_list walk.new)) }
{
    while let Some(name) = next_of(walk) {
        if is_kept(removed, rows, name) {
            return Some(name);
        }
    }
    None
}

/// The next name of the walk, or nothing at the end and where there is no walk.
fn next_of(walk: &mut Option<Walk<'_>>) -> Option<u32>
    ensures { MatchOption result ((walk_list walk.old ≡ []) × (walk_list walk.new ≡ [])) (λ name. walk_list walk.old ≡ name ∷ walk_list walk.new) }
{
    walk.as_mut()?.advance()
}

/// Whether the name is neither removed nor among the rows.
fn is_kept(removed: &[u32], rows: &[(u32, u32)], name: u32) -> bool
    requires removed { ascends removed.now ≡ true }
    requires rows { ascends (entry_names rows.now) ≡ true }
    ensures { result ≡ is_kept removed.now rows.now name }
{
    !has_name(removed, name) && !has_entry(rows, name)
}
