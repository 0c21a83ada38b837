//! Terms as a document has them.

ghost use Rattle.std.specs.Prelude.{◌≡◌, nat_le};
ghost use Rattle.rw_docpattern.specs.Terms as spec;

use rw_doc::{has_name_length, has_text_length};
use rw_rule::MOST_LEVELS;
use rw_schema::{Atom, Text};
use sqlite_items::Boxed;

/// A term as a document has it: a constant, a variable by its name, or an operation by its name, on two terms.
#[derive(Drop)]
pub enum WrittenTerm {
    Const(Atom),
    Var(Text),
    Op(Text, Boxed<WrittenTerm>, Boxed<WrittenTerm>),
}

impl WrittenTerm {
    /// Whether the texts in the term are short enough, and it has few enough levels.
    pub(crate) fn is_within_limits(&self) -> bool
        ensures { result ≡ spec.is_within_limits self.now }
    {
        self.has_short_texts() && self.has_at_most(MOST_LEVELS)
    }

    /// Whether each text and each name of a variable has a length that is allowed. The stack grows with the levels.
    fn has_short_texts(&self) -> bool
        ensures { result ≡ spec.has_short_texts self.now }
    {
        match self {
            WrittenTerm::Const(atom) => has_text_length(atom),
            WrittenTerm::Var(name) => has_name_length(name.as_str()),
            WrittenTerm::Op(_, first, second) => {
                first.get().has_short_texts() && second.get().has_short_texts()
            }
        }
    }

    /// Whether the term has at most so many levels. The stack grows with the levels, but not past `most`.
    fn has_at_most(&self, most: usize) -> bool
        ensures { result ≡ nat_le (spec.levels_of self.now) most }
    {
        match self {
            WrittenTerm::Const(_) | WrittenTerm::Var(_) => 1 <= most,
            WrittenTerm::Op(_, first, second) => {
                1 <= most && first.get().has_at_most(most - 1) && second.get().has_at_most(most - 1)
            }
        }
    }
}
