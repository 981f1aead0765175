//! The operators of words on shared gates: each asks for the gates of its recurrence, in its order.
#![tactic(auto)]

mod bits;
pub mod laws;
mod moves;
mod operators;
mod order;
mod products;
mod sums;

pub use bits::{all_bits, choose};
pub use moves::{select, shift};
pub use operators::{binary, extend, unary};
pub use order::{equal, less};
pub use products::multiply;
pub use sums::add;
