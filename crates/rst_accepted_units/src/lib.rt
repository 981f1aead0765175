//! The expressions, statements and widths of every design that elaboration accepts: they fit together.
#![tactic(auto)]

pub mod laws;
