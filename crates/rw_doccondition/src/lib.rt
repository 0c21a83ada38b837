//! The conditions of rules, that are read from JSON, each with its exact first fault.
#![tactic(auto)]

mod conditions;
mod forms;
mod images;
mod known;
mod members;
mod parts;

pub use conditions::{ConditionsRead, read_conditions};
pub use known::Known;
