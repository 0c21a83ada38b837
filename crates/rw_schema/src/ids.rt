//! The numbers of a schema's objects, arrows and attributes: their places in its lists, from 0.

/// The number of an object.
#[derive(Clone, Copy, Debug, PartialEq, Eq)]
pub struct ObjectId(pub u16);

/// The number of an arrow.
#[derive(Clone, Copy, Debug, PartialEq, Eq)]
pub struct ArrowId(pub u16);

/// The number of an attribute.
#[derive(Clone, Copy, Debug, PartialEq, Eq)]
pub struct AttrId(pub u16);
