//! Rows of pairs of designs: the clauses of queries, the cases that the solver finds, and hops.
#![tactic(auto)]

mod circuits;
mod fronts;
mod hops;
#[cfg(test)]
mod numbering;
#[cfg(test)]
mod queries;
#[cfg(test)]
mod widening;

pub use hops::{blocked_hop, freed_hop};
