//! What the versions of scripts have: in version 1 no bit is free.
#![tactic(auto)]

pub mod laws;
