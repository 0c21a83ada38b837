//! What is glued of a context and a right side, under the names of a double pushout, and the first clash where nothing can be
//! glued. The crate has definitions and lemmas, and no code but the laws that state them.
#![tactic(auto)]

mod laws;

pub use laws::{glued_are_double_pushouts, has_one_gluing};
