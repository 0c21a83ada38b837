//! Values of variables.

ghost use Rattle.std.specs.Prelude.{◌≡◌};

use rw_schema::Atom;
use std::marker::Model;

/// The values of variables, by their numbers. Contracts see the list of the values.
#[derive(Drop)]
pub struct Valuation {
    values: Vec<Atom>,
}

impl Model for Valuation {
    ghost use Rattle.std.specs.Prelude.{List};
    ghost use Rattle.rw_schema.specs.declared.atom.Atom.{Atom};

    ghost Value = { List Atom };

    ghost view = { λ valuation. valuation.values.items };
}

impl Valuation {
    /// The values of the variables, the first of them that of variable 0.
    pub fn of(values: Vec<Atom>) -> Valuation
        ensures { result ≡ values.items }
    {
        Valuation { values }
    }

    /// The values.
    pub fn values(&self) -> &[Atom]
        ensures { result.now ≡ self.now }
    {
        self.values.as_slice()
    }
}
