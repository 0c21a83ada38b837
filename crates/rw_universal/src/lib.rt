//! Pullbacks and pushouts of instances are taken object by object: what has to hold at each object, and that the
//! universal property follows. The crate has definitions and lemmas alone, and no code.
#![tactic(auto)]
