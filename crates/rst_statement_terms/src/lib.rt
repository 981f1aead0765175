//! The terms of statements: what they leave the bits of the signals with, over any algebra.
#![tactic(auto)]

pub mod laws;
