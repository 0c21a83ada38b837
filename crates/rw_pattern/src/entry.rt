//! The entries of a pattern's rows.

use rw_schema::ArrowId;

/// An entry of a pattern's row: an arrow, the place of a part of its source in a tuple, and the place of the
/// part's image.
#[derive(Clone, Copy, Debug, PartialEq, Eq)]
pub struct RowEntry {
    pub arrow: ArrowId,
    pub source: usize,
    pub target: usize,
}
