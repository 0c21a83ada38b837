//! Kept lists: of each goal the ordered list of its matches, and what leaves and enters it.
#![tactic(auto)]

mod compare;
mod fresh;
mod news;

pub use compare::differences;
pub use fresh::fresh_list;
pub use news::{ListNews, ListsNews};
