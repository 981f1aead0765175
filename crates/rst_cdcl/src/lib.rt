//! A conflict-driven solver for clauses. It is a finder: it is proved safe, and that each call
//! ends, and no more. What it finds is to be checked elsewhere, a model by evaluating the clauses,
//! a refutation by replaying the log.
//!
//! Literals are signed numbers of variables, as in the DIMACS format.
#![tactic(auto)]

mod adding;
mod analyze;
mod arena;
mod assignment;
mod cells;
mod conflicts;
mod failed;
mod hint;
mod log;
mod propagate;
mod queue;
mod reduce;
mod restart;
mod scores;
mod search;
mod solver;
mod uses;
mod watches;

pub use hint::Hint;
pub use log::Log;
pub use solver::{Outcome, Solver};
