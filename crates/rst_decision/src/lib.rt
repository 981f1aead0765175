//! What three-valued simulation from power-up knows of the gates of a design along a pattern.
#![tactic(auto)]

mod deciding;

pub use deciding::{known_states, knows};
