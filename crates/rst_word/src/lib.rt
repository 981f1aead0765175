//! Operators, and words of 1 to 64 bits with their two-valued operations.
#![tactic(auto)]

mod arithmetic;
pub mod laws;
mod operators;
mod ops;
mod word;

pub use ops::{BinaryOp, UnaryOp};
pub use word::Word;
