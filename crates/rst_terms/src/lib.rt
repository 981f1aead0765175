//! The operators of words by their bits: one set of recurrences over any algebra of `not`, `and`, `xor` and `mux`, and what they
//! give on numbers.
#![tactic(auto)]

mod kinds;
pub mod laws;

pub use kinds::{Connective, Direction};
