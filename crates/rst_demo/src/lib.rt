//! The design and the script of a demonstration.
#![tactic(auto)]

mod demo;

pub use demo::{demo_script, demo_source};
