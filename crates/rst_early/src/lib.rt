//! A quick search for what refutes a pattern: runs of pairs of states that are drawn.
#![tactic(auto)]

mod apart;
mod drawing;
mod trying;

pub use apart::Apart;
pub use trying::early;
