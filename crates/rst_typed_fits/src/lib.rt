//! Laws of typed statements without faults: they fit together.
#![tactic(auto)]

pub mod laws;
