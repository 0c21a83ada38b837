//! A schema without its names: what an instance depends on.

use crate::{Kind, ObjectId};

/// The two ends of an arrow.
#[derive(Clone, Copy, Debug, PartialEq, Eq)]
pub struct ArrowEnds {
    pub source: ObjectId,
    pub target: ObjectId,
}

/// The two ends of an attribute: its object, and the kind of its atoms.
#[derive(Clone, Copy, Debug, PartialEq, Eq)]
pub struct AttrEnds {
    pub object: ObjectId,
    pub kind: Kind,
}
