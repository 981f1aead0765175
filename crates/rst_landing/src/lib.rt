//! Whether a pattern of inputs leads some pair of power-up states into a blocked cube of a front.
#![tactic(auto)]

mod answer;
mod asking;
mod model;
mod paths;

pub use answer::Landing;
pub use asking::lands;
