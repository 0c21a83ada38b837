//! The lines that the program prints: each is the compact text of one JSON value and a line feed.
#![tactic(auto)]

mod atom;
mod check;
mod fault;
mod last;
mod limit;
mod line;
mod matches;
mod news;
mod refused;
mod sample;
mod show;
mod step;

pub use check::check_line;
pub use fault::fault_line;
pub use last::{End, end_line};
pub use limit::{clash_line, large_line, limit_line};
pub use matches::matches_line;
pub use sample::sample_line;
pub use show::show_line;
pub use step::step_line;

#[cfg(test)]
mod tests;
