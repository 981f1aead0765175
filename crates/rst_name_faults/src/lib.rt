//! The rows of refusals over the names of one module: names that are declared twice, ports whose header and declarations disagree,
//! and names that are used and not declared (IEEE 1364-2001, clauses 3.11, 3.12 and 12.3).
#![tactic(auto)]

mod declaring;
mod uses;

pub use declaring::{ports_pass, twice_passes};
pub use uses::uses_pass;
