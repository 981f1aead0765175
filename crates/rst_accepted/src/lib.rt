//! What holds of every design that elaboration accepts.
#![tactic(auto)]

pub mod laws;
