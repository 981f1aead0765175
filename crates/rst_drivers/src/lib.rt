//! What drives and what reads the signals of a flat design, and the rows of refusals over it.
#![tactic(auto)]

mod bits;
mod drives;
mod flat_rows;
mod limits;
mod reads;

pub use drives::{Drive, drives_of};
pub use flat_rows::flat_passes;
