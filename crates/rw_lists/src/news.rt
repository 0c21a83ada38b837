//! What left kept lists and what entered them.

use rw_pattern::Tuple;

/// The tuples that left a list and those that entered it, both in lexicographic order.
#[derive(Drop)]
pub struct ListNews {
    pub gone: Vec<Tuple>,
    pub new: Vec<Tuple>,
}

/// Of each list that changed its number, and what left and entered it; by ascending number.
#[derive(Drop)]
pub struct ListsNews {
    pub lists: Vec<(u32, ListNews)>,
}
