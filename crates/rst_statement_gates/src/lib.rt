//! From statements to shared gates.
#![tactic(auto)]

mod labels;
mod marks;
mod statements;
mod waiting;

pub use statements::{assign, clocked, combinational};
