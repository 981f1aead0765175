//! The solver: it answers a model, a log that refutes, or as many paths as it was allowed. What a
//! conflict-driven solver finds is checked, a model by evaluation and a log by replay; where it
//! gives up, a tree of decisions is searched.
#![tactic(auto)]

mod climb;
mod evaluate;
mod finder;
mod levels;
mod proposal;
mod search;
mod solver;
mod tree;

pub use solver::{Answer, solve, solve_by};
