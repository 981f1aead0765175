//! The weight of a design: how many gates its operators, statements and resets ask for.
#![tactic(auto)]

mod counts;
mod operators;
mod weights;

pub use weights::weight;
