//! Rewriting rules: spans of patterns.
#![tactic(auto)]

mod check;
mod condition;
mod cycle;
mod fault;
mod given;
mod goal;
mod images;
mod kind;
mod maps;
mod parts;
mod plain;
mod refusal;
mod rule;
mod set;
mod sets;
mod watch;

pub use condition::Condition;
pub use fault::RuleFault;
pub use given::first_value_missing;
pub use goal::Goal;
pub use images::is_one_to_one;
pub use kind::RuleKind;
pub use parts::RuleParts;
pub use plain::is_plain;
pub use refusal::Refusal;
pub use rule::Rule;
pub use set::SetCell;
pub use sets::{MOST_LEVELS, fits_term, is_closed, is_set};
pub use watch::Watch;
