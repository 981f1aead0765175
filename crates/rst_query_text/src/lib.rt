//! Queries for measurements and rows: a builder that checks its operands, and a reader of queries
//! that are written as text (docs/FORMATS.md).
#![tactic(auto)]

mod posing;
mod query;

pub use posing::Posing;
pub use query::read;
