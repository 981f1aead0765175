//! Drivers, roles and resets of every design that elaboration accepts.
#![tactic(auto)]

pub mod laws;
