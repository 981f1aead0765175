//! Simulation of gates along a sequence of inputs, in two and in three values, and the registers
//! that depend on registers of a set alone.
#![tactic(auto)]

mod closed;
mod cycle;
mod run;
mod support;

pub use closed::closed_equal;
pub use cycle::{tern_cycle, two_cycle};
pub use run::{TernTrace, Trace, tern_run, tern_run_free, two_run};
