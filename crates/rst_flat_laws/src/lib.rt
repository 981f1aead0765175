//! What the rows of elaboration give of a flat design, as the netlist asks for it.
#![tactic(auto)]

pub mod laws;
