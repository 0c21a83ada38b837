//! Cells that a step sets.

use rw_schema::AttrId;
use rw_terms::Term;

/// A cell of the right pattern that a step sets to the value of a term.
#[derive(Drop)]
pub struct SetCell {
    pub attr: AttrId,
    pub part: u32,
    pub term: Term,
}
