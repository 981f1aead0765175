//! The flat design: signals with their roles, typed statements, units and clocked blocks.
//!
//! Contracts see each type as its plain form, which has lists in place of what lies in memory (`specs/`).
#![tactic(auto)]

mod flat;
mod signal;
mod stmt;
mod unit;

pub use flat::Flat;
pub use signal::{Role, Signal, Slice};
pub use stmt::{TypedArm, TypedCase, TypedLabel, TypedSet, TypedStmt};
pub use unit::{Driver, Process, Reset};
