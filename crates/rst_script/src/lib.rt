//! Scripts: which reset sequence is meant, and how it is to be looked at.
//!
//! `read_script` reads a script's text, and `fit_script` gives the pattern of inputs that its steps give a design.
#![tactic(auto)]

mod choices;
mod fitting;
pub mod laws;
mod lines;
mod numbers;
mod opening;
mod reading;
mod script;
mod steps;
mod words;

pub use fitting::{MOST_FREE, fit_script};
pub use reading::read_script;
pub use script::{Script, ScriptFault, Setting, Step};
pub use steps::MOST_CYCLES;
