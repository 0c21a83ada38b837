//! Pushout complements by their universal property, the least of them part by part, and the double pushout under the names
//! that it takes. The crate has definitions and lemmas, and no code but the laws that state them.
#![tactic(auto)]

mod laws;

pub use laws::{has_one_context, has_one_double_pushout};
