//! The machine of a netlist's gates is the machine of the source, and what holds of the one holds of the other.
#![tactic(auto)]

pub mod laws;
