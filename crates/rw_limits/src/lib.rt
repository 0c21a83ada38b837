//! Limits and colimits of instances: pullbacks and pushouts.
#![tactic(auto)]

mod class_cells;
mod class_names;
mod class_rows;
mod colimit;
mod cospan;
mod fibers;
mod laws;
mod limit;
mod pair_cells;
mod pair_lists;
mod pair_rows;
mod pairs;

pub use colimit::{GlueFault, PushoutResult, pushout};
pub use laws::{has_one_pullback, has_one_pushout};
pub use limit::{PullEnd, PullbackResult, pullback};
