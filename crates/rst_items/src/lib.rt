//! How the items of instances are seen: instances beside the tables of their modules, reset forms, and what units and rows of
//! refusals are made of (IEEE 1364-2001, clauses 9.9 and 12.3).
#![tactic(auto)]

mod links;
mod numbers;
mod reset_forms;

pub use links::{Site, Whole, by_prefix};
pub use numbers::number_of;
pub use reset_forms::{ResetForm, bare_stmt, is_clocked, is_rising, reset_form};
