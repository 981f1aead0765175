//! From a netlist to shared gates.
#![tactic(auto)]

mod blocks;
pub mod laws;
mod listing;
mod lowering;

pub use blocks::{clocked, settle};
pub use lowering::lower;
