//! The checker of logs: whether a log refutes clauses.
#![tactic(auto)]

mod check;
mod hints;
mod load;
mod range;

pub use check::{refutes, refutes_by};
pub use hints::Hints;
