//! The clauses that are posed for a query about a pair of designs, and the work of searches that ask
//! such queries.
#![tactic(auto)]

mod cubes;
mod gate;
mod land;
mod limits;
mod posing;
mod states;

pub use limits::is_posable;
pub use posing::pose;
