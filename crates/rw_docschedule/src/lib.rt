//! The schedule of a document, that is read from JSON.
#![tactic(auto)]

mod form;
mod schedule;
mod wired;

pub use schedule::read_schedule;
