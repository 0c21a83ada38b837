//! Steps of single-pushout rules: what obstructs a match, the step by its universal property, and the change of the host that
//! leaves it. The crate has definitions and lemmas, and no code but the laws that state them.
#![tactic(auto)]

mod laws;

pub use laws::{has_one_single_verdict, largest_pairs_are_changes};
