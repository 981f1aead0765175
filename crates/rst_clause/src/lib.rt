//! Clauses over numbered variables: their types, the clauses of gates as a domain, and what it
//! means that a log refutes clauses.
#![tactic(auto)]

mod clause;
mod clause_domain;
mod clauses;
mod gate_clauses;
mod indexed;
mod laws;
mod lit;
mod propagation;
mod status;
mod store;
mod trail;

pub use clause::{Clause, Log};
pub use clause_domain::ClauseDomain;
pub use clauses::Clauses;
pub use indexed::IndexedClauses;
pub use laws::{disjoint_paths_are_few, one_extension, refutations_refute};
pub use lit::Lit;
pub use propagation::propagate;
pub use status::{Status, status_of};
pub use store::ClauseStore;
pub use trail::Trail;
