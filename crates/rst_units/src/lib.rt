//! The items of instances as units and clocked blocks of the flat design (IEEE 1364-2001, clauses 6.1, 9.9 and 12.3).
#![tactic(auto)]

mod blocks;
mod items;
mod links;

pub use items::{Units, units_of};
