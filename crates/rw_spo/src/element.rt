//! Elements of the host and of the right side.

/// An element of the host or of the right side: a part, or its cell of an attribute.
#[derive(Clone, Copy, Debug, PartialEq, Eq, Hash)]
pub(crate) struct Element {
    pub(crate) is_right: bool,

    /// The number of the attribute, for a cell.
    pub(crate) attribute: Option<u16>,

    /// The number of the part's object.
    pub(crate) object: u16,

    /// The part: its name in the host, or its number on the right side.
    pub(crate) part: u32,
}
