//! The rows of refusals over targets, widths of ports and edges (IEEE 1364-2001, clauses 6.1, 9.2, 9.9 and 12.3).
#![tactic(auto)]

mod edges;
mod targets;
mod widths;

pub use edges::edges_pass;
pub use targets::targets_pass;
pub use widths::widths_pass;
