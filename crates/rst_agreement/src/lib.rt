//! The machine of a design's gates is the machine of the design.
#![tactic(auto)]

pub mod laws;
