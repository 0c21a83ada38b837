//! Entries on the cells of a pattern.

use crate::WrittenTerm;
use rw_schema::{AttrId, Text};

/// A term on the cell of a part, with the name of an attribute.
#[derive(Drop)]
pub struct WrittenEntry {
    pub attribute: Text,
    pub part: u32,
    pub term: WrittenTerm,
}

/// A term on the cell of a part.
#[derive(Drop)]
pub struct Entry {
    pub attr: AttrId,
    pub part: u32,
    pub term: WrittenTerm,
}
