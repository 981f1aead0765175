//! Laws of posed queries: their solutions, read on the free bits, are the cases of the query.
#![tactic(auto)]

mod laws;

pub use laws::posed_queries;
