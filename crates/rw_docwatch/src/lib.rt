//! The watches of a document, that are read from JSON.
#![tactic(auto)]

mod heads;
mod laws;
mod members;
mod watches;

pub use laws::watches_tell_first;
pub use watches::read_watches;
