//! From the texts of a design to its netlist, or the first refusal.
#![tactic(auto)]

mod design;
pub mod laws;
mod texts;

pub use design::read_design;
