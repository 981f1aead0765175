//! What the terms of statements spell in two values: the effect of the statements.
#![tactic(auto)]

pub mod laws;
