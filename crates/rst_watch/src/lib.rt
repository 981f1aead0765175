//! Unit propagation with two watched literals a clause.
#![tactic(auto)]

mod apply;
mod floors;
mod learn;
mod levels;
mod look;
mod numbers;
mod propagator;
mod state;
mod visit;

pub use propagator::Propagator;
