//! Kept lists: of each goal the ordered list of its matches that meet its conditions, with their extensions beside it; and
//! what a change does to them.
#![tactic(auto)]

mod admitted;
mod extensions;
mod groups;
mod kept;
mod restrict;

pub use kept::Kept;
