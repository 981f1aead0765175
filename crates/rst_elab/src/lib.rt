//! Elaboration: from the modules of a design to the flat design below its top, or the first refusal (IEEE 1364-2001, clause 12).
#![tactic(auto)]

mod clocks;
mod elaborating;
mod flat;
mod refusing;
mod resets;

pub use elaborating::elaborate;
pub use rst_names::{ElabCode, ElabError, ElabFault};
pub use rst_net::Flat;
