//! The first rows of refusals of elaboration: modules, their hierarchy and their names (IEEE 1364-2001, clause 12.1).
#![tactic(auto)]

mod connects;
mod hierarchy;
mod modules;
mod reach;

pub use hierarchy::{names_pass, text_passes, used_modules};
pub use modules::{Modules, modules_of};
