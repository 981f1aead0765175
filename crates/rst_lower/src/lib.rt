//! From words to shared gates: the gates of typed expressions.
#![tactic(auto)]

mod expressions;
pub mod laws;
mod wires;

pub use expressions::expression;
pub use wires::Wires;
