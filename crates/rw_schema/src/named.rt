//! Things that have a name.

ghost use Rattle.std.specs.Prelude.{◌≡◌, List, ℕ};

use crate::{ArrowDef, AttrDef, Text};

/// A thing with a name.
pub trait Named {
    /// The bytes of the name.
    ghost name_of: { Self → List ℕ };

    fn name(&self) -> &Text
        ensures { result.now ≡ name_of self.now };
}

impl Named for Text {
    ghost name_of = { λ text. text };

    fn name(&self) -> &Text {
        self
    }
}

impl Named for ArrowDef {
    ghost name_of = { λ arrow. arrow.name };

    fn name(&self) -> &Text {
        &self.name
    }
}

impl Named for AttrDef {
    ghost name_of = { λ attribute. attribute.name };

    fn name(&self) -> &Text {
        &self.name
    }
}
