//! Why there is nothing to glue.

ghost use Rattle.std.specs.Prelude.{◌≡◌};
ghost use Rattle.rw_glue.specs.declared.end.GlueEnd.TheVariants as ends;

use rw_schema::{Atom, AttrId, ObjectId, OutOfMemory};

/// Why a context and a right side are not glued.
#[derive(Drop)]
pub enum GlueEnd {
    /// The next name of the object would pass 16,777,216; it is the least such object.
    TooLarge {
        object: ObjectId,
    },

    /// Two atoms are demanded of one cell of what would come: the least object, name and attribute. The first is that of
    /// the first part that demands one, names of the context in ascending order before parts of the right side, and the
    /// second is the first that differs from it.
    Clash {
        object: ObjectId,
        name: u32,
        attr: AttrId,
        first: Atom,
        second: Atom,
    },

    /// No memory was there.
    OutOfMemory,
}

impl From<OutOfMemory> for GlueEnd {
    ghost from_gives = { λ _ end. end ≡ ends.OutOfMemory };

    fn from(_error: OutOfMemory) -> GlueEnd {
        GlueEnd::OutOfMemory
    }
}
