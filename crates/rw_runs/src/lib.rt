//! Runs of a schedule, whatever the steps of its rules are: definitions and lemmas alone.
#![tactic(auto)]
