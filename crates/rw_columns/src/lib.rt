//! Instances in columns: one column of numbers for each arrow, and one for the live names of each object.
#![tactic(auto)]

mod after;
mod cell_changes;
mod change;
mod changes;
mod columns;
mod commit;
mod entries;
mod fill;
mod leading;
mod read;
mod renew;
mod rewrite;
mod room;
mod staying;
#[cfg(test)]
mod tests;
mod walks;

pub use change::{Added, Change};
pub use columns::Columns;
pub use entries::place_of_entry;
pub use walks::{Names, Preimage};
