//! Walks over names in slices: all of them, or those beside which a number stands.

ghost use Rattle.std.specs.Prelude.{◌≡◌, [], ◌∷◌, MatchOption};
ghost use Rattle.rw_columns.specs.Changes.{entry_names, entry_values};
ghost use Rattle.rw_columns.specs.inner.Walks.{leading};

use std::marker::Model;

/// What is left of a walk over the rewritten names that lead to one number now.
#[derive(Drop)]
pub struct Rewritten<'a> {
    rows: &'a [(u32, u32)],
    number: u32,
}

impl<'a> Model for Rewritten<'a> {
    ghost use Rattle.std.specs.Prelude.{List, ℕ};
    ghost use Rattle.rw_columns.specs.Changes.{entry_names, entry_values};
    ghost use Rattle.rw_columns.specs.inner.Walks.{leading};

    ghost Value = { List ℕ };

    ghost view = { λ rewritten. leading (entry_names rewritten.rows.now) (entry_values rewritten.rows.now) rewritten.number };
}

impl<'a> Rewritten<'a> {
    /// The names of the rows beside which the number stands.
    pub fn new(rows: &'a [(u32, u32)], number: u32) -> Rewritten<'a>
        ensures { result ≡ leading (entry_names rows.now) (entry_values rows.now) number }
    {
        Rewritten { rows, number }
    }

    /// The next name, or nothing at the end.
    pub fn next(&mut self) -> Option<u32>
        ensures { MatchOption result ((self.old ≡ []) × (self.new ≡ [])) (λ name. self.old ≡ name ∷ self.new) }
    {
        while let Some((first, rest)) = self.rows.split_first() {
            self.rows = rest;
            if first.1 == self.number {
                return Some(first.0);
            }
        }
        None
    }
}

/// What is left of a walk over the added names that lead to one number.
#[derive(Drop)]
pub struct Added<'a> {
    names: &'a [u32],
    images: &'a [u32],
    number: u32,
}

impl<'a> Model for Added<'a> {
    ghost use Rattle.std.specs.Prelude.{List, ℕ};
    ghost use Rattle.rw_columns.specs.inner.Walks.{leading};

    ghost Value = { List ℕ };

    ghost view = { λ added. leading added.names.now added.images.now added.number };
}

impl<'a> Added<'a> {
    /// Of the names those beside which the number stands.
    pub fn new(names: &'a [u32], images: &'a [u32], number: u32) -> Added<'a>
        ensures { result ≡ leading names.now images.now number }
    {
        Added {
            names,
            images,
            number,
        }
    }

    /// The next name, or nothing at the end.
    pub fn next(&mut self) -> Option<u32>
        ensures { MatchOption result ((self.old ≡ []) × (self.new ≡ [])) (λ name. self.old ≡ name ∷ self.new) }
    {
        while let (Some((name, names)), Some((image, images))) = (
            self.names.split_first(),
            self.images.split_first(),
        ) {
            self.names = names;
            self.images = images;
            if *image == self.number {
                return Some(*name);
            }
        }
        None
    }
}

/// What is left of a walk over names in a slice.
#[derive(Drop)]
pub struct Listed<'a> {
    names: &'a [u32],
}

impl<'a> Model for Listed<'a> {
    ghost use Rattle.std.specs.Prelude.{List, ℕ};

    ghost Value = { List ℕ };

    ghost view = { λ listed. listed.names.now };
}

impl<'a> Listed<'a> {
    /// All names of the slice.
    pub fn new(names: &'a [u32]) -> Listed<'a>
        ensures { result ≡ names.now }
    {
        Listed { names }
    }

    /// The next name, or nothing at the end.
    pub fn next(&mut self) -> Option<u32>
        ensures { MatchOption result ((self.old ≡ []) × (self.new ≡ [])) (λ name. self.old ≡ name ∷ self.new) }
    {
        let (name, rest) = self.names.split_first()?;
        self.names = rest;
        Some(*name)
    }
}
