//! The wires that the gates of a design begin with: inputs, states, and the asynchronous resets of registers.
#![tactic(auto)]

mod bits;
mod branch;
mod resets;
mod start;
mod table;

pub use bits::turned;
pub use resets::{number, reset_wires};
pub use start::{input_bits, is_register, start_wires, state_bits};
pub use table::{BitReset, ResetTable};
