//! The terms of designs, over any algebra, and the gates that they are.
#![tactic(auto)]

pub mod laws;
