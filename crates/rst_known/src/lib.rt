//! What three-valued simulation knows of a design: by the terms of the design itself, and by its gates.
#![tactic(auto)]

pub mod laws;
