//! Schedules: boxes that fire one after the other, the wires between them, and the fuel that they take.
#![tactic(auto)]

mod boxes;
mod build;
mod fault;
mod outcome;
mod schedule;
mod state;
mod weights;

pub use boxes::{BoxKind, Cmp, Pick};
pub use build::{MOST_BOXES, ports};
pub use fault::WireFault;
pub use outcome::Outcome;
pub use schedule::Schedule;
pub use state::SchedState;
pub use weights::{Weights, is_small};

#[cfg(test)]
mod tests;
