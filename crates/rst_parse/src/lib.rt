//! From the tokens of a text to its modules.
#![tactic(auto)]

mod declarations;
mod items;
mod laws;
mod links;
mod lists;
mod module;
mod parser;
mod parts;
mod pieces;
mod spelling;
mod symbols;

pub use laws::{fault_place, one_answer, some_answer, well_formed};
pub use parser::{ParseFault, parse};
