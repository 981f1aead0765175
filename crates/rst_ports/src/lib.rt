//! The ports and registers of a design, with their names and widths.
#![tactic(auto)]

mod ports;

pub use ports::{Ports, inputs, outputs, registers};
