//! The refusals that the faults of texts, designs and scripts become.
#![tactic(auto)]

mod designs;
mod scripts;
mod texts;

pub use designs::{elaboration_stop, flow_stop};
pub use scripts::script_stop;
pub use texts::{lexing_stop, parsing_stop};
