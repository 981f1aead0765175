//! Which answer is due of a command: its files are loaded, its question is read and decided, all before anything is written.
#![tactic(auto)]

mod commands;
mod demo;
mod input;
pub mod laws;
mod stops;

pub use commands::due;
pub use input::Purpose;
