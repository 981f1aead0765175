//! The terms of typed expressions: their bits, by those of the signals, over any algebra, and what they spell in two values.
#![tactic(auto)]

pub mod laws;
