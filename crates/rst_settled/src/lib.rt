//! The law of the settled valuation: an accepted design has exactly one for each state and input, so it is one machine.
#![tactic(auto)]

pub mod laws;
