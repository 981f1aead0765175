//! Decides a pattern by a relation, where three-valued simulation leaves a register unknown behind it.
#![tactic(auto)]

mod checking;
mod deciding;
mod decision;
mod joining;
mod marking;

pub use checking::decide_check;
pub use deciding::decide;
pub use decision::Decision;
