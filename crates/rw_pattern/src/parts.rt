//! What a pattern is built from.

use crate::PatternCell;

/// The lists that a pattern is built from: of each object how many parts it has, numbered from 0, of each arrow one
/// image for each part of its source, and what cells are to hold. Several entries may stand on one cell; a cell
/// without an entry is free.
#[derive(Drop)]
pub struct PatternParts {
    pub sizes: Vec<u32>,
    pub rows: Vec<Vec<u32>>,
    pub cells: Vec<PatternCell>,
}
