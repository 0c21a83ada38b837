//! The values of cells, and their kinds.

ghost use Rattle.std.specs.Prelude.{◌≡◌, IfOk, Some};
ghost use Rattle.std.specs.Option.{option_map};
ghost use Rattle.rw_schema.specs.Atoms.{kind_of, is_same_kind, is_of_kind, is_same_atom, are_same_atom};

use crate::{OutOfMemory, Text};
use std::alloc::Global;

/// The kind of an attribute: what its atoms are.
#[derive(Clone, Copy, Debug, PartialEq, Eq)]
pub enum Kind {
    Int,
    Text,
    Bool,
}

impl Kind {
    /// Whether both are one kind.
    pub fn is(self, other: Kind) -> bool
        ensures { result ≡ is_same_kind self other }
    {
        match self {
            Kind::Int => matches!(other, Kind::Int),
            Kind::Text => matches!(other, Kind::Text),
            Kind::Bool => matches!(other, Kind::Bool),
        }
    }
}

/// The value of a cell that is not blank.
#[derive(PartialEq, Eq, Drop)]
pub enum Atom {
    Int(i64),
    Text(Text),
    Bool(bool),
}

impl Atom {
    pub fn kind(&self) -> Kind
        ensures { result ≡ kind_of self.now }
    {
        match self {
            Atom::Int(_) => Kind::Int,
            Atom::Text(_) => Kind::Text,
            Atom::Bool(_) => Kind::Bool,
        }
    }

    /// Whether the atom is of the kind.
    pub fn is_of(&self, kind: Kind) -> bool
        ensures { result ≡ is_of_kind kind self.now }
    {
        self.kind().is(kind)
    }

    /// Whether both are one atom.
    pub fn is(&self, other: &Atom) -> bool
        ensures { result ≡ is_same_atom self.now other.now }
    {
        match self {
            Atom::Int(number) => matches!(other, Atom::Int(same) if same == number),
            Atom::Text(text) => matches!(other, Atom::Text(same) if same.as_str() == text.as_str()),
            Atom::Bool(answer) => matches!(other, Atom::Bool(same) if same == answer),
        }
    }

    /// Whether the cell holds this atom.
    pub fn is_in(&self, cell: Option<&Atom>) -> bool
        ensures { result ≡ are_same_atom (Some self.now) (option_map (λ atom. atom.now) cell.entry) }
    {
        match cell {
            Some(other) => self.is(other),
            None => false,
        }
    }

    /// A copy, in memory of its own.
    pub fn copy(&self, alloc: Global) -> Result<Atom, OutOfMemory>
        ensures { IfOk result (λ copy. copy ≡ self.now) }
    {
        match self {
            Atom::Int(number) => Ok(Atom::Int(*number)),
            Atom::Text(text) => Ok(Atom::Text(text.copy(alloc)?)),
            Atom::Bool(answer) => Ok(Atom::Bool(*answer)),
        }
    }
}
