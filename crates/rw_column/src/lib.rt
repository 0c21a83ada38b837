//! Columns: lists of numbers by place that can walk the places of a number.
//!
//! A column has places, counted from 0, and gives each a number or none. The places that have one number are
//! linked to one another in ascending order, as a thread: so [`Walk`] goes over the places of a number without a
//! look at the others, and the number at a place is changed without a search through the column.
#![tactic(auto)]

mod column;
#[cfg(test)]
mod tests;
mod walk;

pub use column::Column;
pub use walk::Walk;
