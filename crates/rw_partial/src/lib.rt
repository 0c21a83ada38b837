//! Single pushouts: sub-instances, partial homomorphisms and partial cocones, the largest fitting pair, and what is glued of it.
//! The crate has definitions and lemmas, and no code but the laws that state them.
#![tactic(auto)]

mod laws;

pub use laws::{has_one_largest_pair, has_one_single_pushout};
