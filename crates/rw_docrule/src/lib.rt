//! The rules of a document, that are read from JSON.
#![tactic(auto)]

mod build;
mod heads;
mod laws;
mod maps;
mod members;
mod pieces;
mod rules;
mod sides;

pub use build::{build_rules, not_built};
pub use laws::rules_tell_first;
pub use pieces::RuleRead;
pub use rules::read_rules;
