//! What can be read as an instance: columns, and columns as a change will leave them.
#![tactic(auto)]

mod after;
mod changed;
mod context;
mod delta;
mod ordered;
mod probe;
mod reads;
#[cfg(test)]
mod tests;
mod touched;

pub use after::After;
pub use changed::Changed;
pub use context::{Context, Copied};
pub use delta::Delta;
pub use ordered::put_in_order;
pub use probe::Probe;
