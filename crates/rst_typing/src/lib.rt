//! Typed statements and targets (IEEE 1364-2001, clauses 4.4, 4.5, 9.2 and 9.5).
#![tactic(auto)]

mod labels;
mod stmts;
mod typing;

pub use stmts::typed_stmt;
pub use typing::{is_settable, slices_of, typed_or, typed_set};
