//! A count of steps for contracts that bound work. It has no bytes and no code at run time.
#![tactic(auto)]

mod steps;

pub use steps::Steps;
