//! What is glued of a context and a right side by local work: from the classes of the names that are touched to the change of
//! the host that leaves it, or to the first clash. The crate has definitions and lemmas, and no code but the laws that state
//! them.
#![tactic(auto)]

mod laws;

pub use laws::{gluings_are_changes, has_one_verdict};
