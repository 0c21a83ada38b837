//! An ordered set of tuples, whose nodes are made before and put in without memory.
#![tactic(auto)]

mod ends;
mod inserts;
mod node;
mod outs;
mod ranked;
mod read;

pub use ends::join;
pub use inserts::insert;
pub use node::{Link, Node, balanced, raise_left, raise_right};
pub use outs::take_out;
pub use ranked::Ranked;
pub use read::{count, nth, settle};
