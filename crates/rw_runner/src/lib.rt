//! A run that is written while it goes on.
#![tactic(auto)]

mod close;
mod runner;
mod world;

pub use close::{Close, Stop};
pub use runner::{PIECE, has_one_run, run};
pub use world::{Fired, World};
