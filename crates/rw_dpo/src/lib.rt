//! Double-pushout rewriting: whether a rule can be applied at a match, and what stays of the host.
//!
//! Ehrig, Pfender and Schneider, "Graph-grammars: an algebraic approach" (1973), define steps by two pushouts; the first
//! of them is the host, glued of its context and the left side of the rule.
#![tactic(auto)]

mod blank;
mod condition;
mod context;
mod dangling;
mod identification;
mod kept;
mod removed;
mod site;
#[cfg(test)]
mod tests;
mod whole;

pub use blank::is_set;
pub use condition::gluing;
pub use context::{complement, empty_context};
pub use kept::name_of_kept;
pub use site::known;
pub use whole::empty_lists;
