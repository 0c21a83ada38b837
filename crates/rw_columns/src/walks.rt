//! Walks over the names of an instance in columns, and over those that a change leaves.

ghost use Rattle.std.specs.Prelude.{◌≡◌, ◌+◌, ◌++◌, [], ◌∷◌, MatchOption};
ghost use Rattle.rw_columns.specs.inner.Walks.{merge, comes_before};

use crate::leading::{Added, Listed, Rewritten};
use crate::staying::Staying;
use rw_column::Walk;
use rw_steps::Steps;
use std::marker::Model;
use std::sync::ledger::Ledger;

/// What is left of a walk over the names that an arrow leads to one name, in ascending order.
///
/// Over an instance that a change leaves it gives the old names that stay and are not led elsewhere, in one order with
/// those that are led there anew, and behind them the names that were added.
#[derive(Drop)]
pub struct Preimage<'a> {
    staying: Staying<'a>,
    rewritten: Rewritten<'a>,
    added: Added<'a>,

    // The next name of each of the first two walks.
    first_staying: Option<u32>,
    first_rewritten: Option<u32>,
}

impl<'a> Model for Preimage<'a> {
    ghost use Rattle.std.specs.Prelude.{◌++◌, List, ℕ};
    ghost use Rattle.rw_columns.specs.inner.Walks.{ahead, merge};

    ghost Value = { List ℕ };

    ghost view = { λ preimage. merge (ahead preimage.first_staying preimage.staying) (ahead preimage.first_rewritten preimage.rewritten) ++ preimage.added };
}

impl<'a> Preimage<'a> {
    /// The first two walks in one order, and the third behind them.
    pub(crate) fn new(
        mut staying: Staying<'a>,
        mut rewritten: Rewritten<'a>,
        added: Added<'a>,
    ) -> Preimage<'a>
        ensures { result ≡ merge staying.entry rewritten.entry ++ added.entry }
    {
        let first_staying = staying.next();
        let first_rewritten = rewritten.next();
        Preimage {
            staying,
            rewritten,
            added,
            first_staying,
            first_rewritten,
        }
    }

    /// The walk over the places of a column.
    pub(crate) fn of(walk: Walk<'a>) -> Preimage<'a>
        ensures { result ≡ walk.entry }
    {
        Preimage::new(
            Staying::all(walk),
            Rewritten::new(&[], 0),
            Added::new(&[], &[], 0),
        )
    }

    /// The next name, or nothing at the end. It is one step. Over columns it takes the same time wherever the walk
    /// stands. Over what a change leaves, names that are passed over take time but are no steps.
    pub fn next<L: Ledger>(&mut self, steps: &mut Steps<L>) -> Option<u32>
        ensures gives { MatchOption result ((self.old ≡ []) × (self.new ≡ [])) (λ name. self.old ≡ name ∷ self.new) }
        ensures ticks { steps.new ≡ steps.old + 1 }
    {
        steps.tick();
        if is_before(self.first_staying, self.first_rewritten) {
            let name = self.first_staying;
            self.first_staying = self.staying.next();
            return name;
        }
        match self.first_rewritten {
            Some(name) => {
                self.first_rewritten = self.rewritten.next();
                Some(name)
            }
            None => self.added.next(),
        }
    }
}

/// Whether the first is less than the second, where nothing is above all numbers.
fn is_before(first: Option<u32>, second: Option<u32>) -> bool
    ensures { result ≡ comes_before first second }
{
    match (first, second) {
        (Some(x), Some(y)) => x < y,
        (Some(_), None) => true,
        (None, _) => false,
    }
}

/// What is left of a walk over the names of one object, in ascending order.
///
/// Over an instance that a change leaves it gives the old names that stay, and behind them the names that were added.
#[derive(Drop)]
pub struct Names<'a> {
    staying: Staying<'a>,
    added: Listed<'a>,
}

impl<'a> Model for Names<'a> {
    ghost use Rattle.std.specs.Prelude.{◌++◌, List, ℕ};

    ghost Value = { List ℕ };

    ghost view = { λ names. names.staying ++ names.added };
}

impl<'a> Names<'a> {
    /// The names of the first walk, and the others behind them.
    pub(crate) fn new(staying: Staying<'a>, added: Listed<'a>) -> Names<'a>
        ensures { result ≡ staying.entry ++ added.entry }
    {
        Names { staying, added }
    }

    /// The walk over the places of a column.
    pub(crate) fn of(walk: Walk<'a>) -> Names<'a>
        ensures { result ≡ walk.entry }
    {
        Names::new(Staying::all(walk), Listed::new(&[]))
    }

    /// The next name, or nothing at the end. It is one step. Over columns it takes the same time wherever the walk
    /// stands. Over what a change leaves, names that are passed over take time but are no steps.
    pub fn next<L: Ledger>(&mut self, steps: &mut Steps<L>) -> Option<u32>
        ensures gives { MatchOption result ((self.old ≡ []) × (self.new ≡ [])) (λ name. self.old ≡ name ∷ self.new) }
        ensures ticks { steps.new ≡ steps.old + 1 }
    {
        steps.tick();
        match self.staying.next() {
            Some(name) => Some(name),
            None => self.added.next(),
        }
    }
}
