//! Classes of parts: what the images of one apex join on two sides, and whether the atoms of each class are one.
//!
//! Pushouts are made of such classes, and so is what a rule leaves behind.
#![tactic(auto)]

mod clashes;
mod classes;
mod joined;
mod merge;
mod spots;

pub use clashes::{ClashAt, first_clash, merge_each};
pub use classes::{Classes, join};
pub use joined::{class_lists, firsts_at, numbers_at};
pub use merge::{Difference, Merged};
pub use spots::spot_of;
