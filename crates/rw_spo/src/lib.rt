//! Single-pushout rewriting: what stays of the host and of the right side of a rule.
//!
//! Löwe, "Algebraic approach to single-pushout graph transformation" (1993), defines a step by one pushout of partial
//! homomorphisms.
#![tactic(auto)]

mod along;
mod beside;
mod element;
mod gone;
mod pair;
mod removal;
mod removed;
mod start;
mod staying;

pub use pair::largest_pair;
