//! The kinds and the depths of terms.

ghost use Rattle.std.specs.Prelude.{◌≡◌, nat_le, slice_get};
ghost use Rattle.rw_terms.specs.TermKinds.{depth_of, is_number_kind as is_number_kind_of, kind_of_term};

use crate::Term;
use rw_schema::Kind;

impl Term {
    /// The kind of the term's value, where its variables have these kinds and so many operations are there: nothing
    /// where a variable or an operation is not there, or an operand is no number. The stack grows with the depth of the
    /// term.
    pub fn kind(&self, variables: &[Kind], ops: usize) -> Option<Kind>
        ensures { result ≡ kind_of_term ops variables.now self.now }
    {
        match self {
            Term::Const(atom) => Some(atom.kind()),
            Term::Var(variable) => kind_at(variables, *variable),
            Term::Op(op, first, second) => {
                if (*op as usize) < ops
                    && is_number_kind(first.get().kind(variables, ops))
                    && is_number_kind(second.get().kind(variables, ops))
                {
                    Some(Kind::Int)
                } else {
                    None
                }
            }
        }
    }

    /// Whether the term has at most so many levels. The stack grows with the depth of the term, but not past `most`.
    pub fn is_within(&self, most: usize) -> bool
        ensures { result ≡ nat_le (depth_of self.now) most }
    {
        match self {
            Term::Const(_) | Term::Var(_) => 1 <= most,
            Term::Op(_, first, second) => {
                1 <= most && first.get().is_within(most - 1) && second.get().is_within(most - 1)
            }
        }
    }
}

/// Whether the kind is there, and is that of numbers.
fn is_number_kind(kind: Option<Kind>) -> bool
    ensures { result ≡ is_number_kind_of kind }
{
    match kind {
        Some(kind) => kind.is(Kind::Int),
        None => false,
    }
}

/// The kind of a variable.
fn kind_at(variables: &[Kind], variable: u32) -> Option<Kind>
    ensures { result ≡ slice_get variables.now variable }
{
    match variables.get(variable as usize) {
        Some(kind) => Some(*kind),
        None => None,
    }
}
