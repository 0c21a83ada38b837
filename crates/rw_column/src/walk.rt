//! Walks over the places that have one number.

ghost use Rattle.std.specs.Prelude.{◌≡◌, ◌<◌, ◌+◌, [], ◌∷◌, MatchOption};
ghost use Rattle.rw_column.specs.Threads.{places_from};

use crate::Column;
use crate::column::NOTHING;
use rw_steps::Steps;
use std::marker::Model;
use std::sync::ledger::Ledger;

/// What is left of a walk over the places of a column that have one number, in ascending order.
///
/// The walk borrows its column and holds one place: it takes no memory, and the column stays as it is meanwhile.
#[derive(Drop)]
pub struct Walk<'a> {
    column: &'a Column,
    value: u32,
    place: u32,
}

impl<'a> Model for Walk<'a> {
    ghost use Rattle.std.specs.Prelude.{ℕ, ◌<◌, ◌≤◌, List, length, slice_index};
    ghost use Rattle.rw_column.specs.Threads.{nothing, places_from};
    ghost use Rattle.rw_column.specs.inner.Links.{IsStop};

    ghost Value = { List ℕ };

    ghost view = { λ w. places_from w.column.now.values w.value w.place };

    ghost invariant = { λ w. (w.value < w.column.now.targets) × (length w.column.now.values ≤ nothing) × IsStop (length w.column.now.values) (slice_index w.column.now.values) w.value w.place };
}

impl<'a> Walk<'a> {
    /// The walk over all places that have the number. It takes constant time, and no step is counted.
    #[tactic(auto, using(crate::proofs::Walks::skipped))]
    pub fn new(column: &'a Column, value: u32) -> Walk<'a>
        requires { value < column.now.targets }
        ensures { result ≡ places_from column.now.values value 0 }
    {
        Walk {
            column,
            value,
            place: column.first(value),
        }
    }

    /// The next place, or nothing at the end, and then at each further call. It takes constant time and counts one
    /// step, also at the end: so a whole walk counts one step more than it has places.
    pub fn next<L: Ledger>(&mut self, steps: &mut Steps<L>) -> Option<u32>
        ensures gives { MatchOption result ((self.old ≡ []) × (self.new ≡ [])) (λ place. self.old ≡ place ∷ self.new) }
        ensures ticks { steps.new ≡ steps.old + 1 }
    {
        steps.tick();
        self.advance()
    }

    /// The next place, as [`Walk::next`] gives it, where no step is counted: for walks that pass over some places
    /// and count what they give.
    #[tactic(auto, using(crate::proofs::Walks::stepped))]
    pub fn advance(&mut self) -> Option<u32>
        ensures { MatchOption result ((self.old ≡ []) × (self.new ≡ [])) (λ place. self.old ≡ place ∷ self.new) }
    {
        let place = self.place;
        if place == NOTHING {
            return None;
        }
        self.place = self.column.next(place);
        Some(place)
    }
}
