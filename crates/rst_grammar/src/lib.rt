//! The grammar of a Verilog text: which symbols spell which tree (IEEE 1364-2001, annex A, narrowed).
#![tactic(auto)]

mod laws;
mod symbol;

pub use laws::{one_module, one_statement, one_target, one_tree, well_formed};
pub use symbol::{NameText, Symbol, Terminal};
