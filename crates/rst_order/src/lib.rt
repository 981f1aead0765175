//! The order of a directed graph in which each vertex stands behind its predecessors, and its cycles.
//!
//! The vertices of a graph are the numbers below the length of a list. The list has, for each vertex, its predecessors: those
//! from which an edge leads to it.
#![tactic(auto)]

mod cycles;
mod marks;
mod orders;
mod progress;
mod successors;

pub use cycles::lies_on_cycle;
pub use orders::{OrderError, dependency_order};
