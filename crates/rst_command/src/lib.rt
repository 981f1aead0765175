//! The command line, read once into a value with fields.
#![tactic(auto)]

mod reading;
mod words;

pub use reading::read_command;
pub use words::{Command, Files, Input, Word};
