//! Refusals: why an input is refused, where, and the line that says so.
//!
//! `specs/Steps.antt` has the words for steps that may refuse, one behind another.
#![tactic(auto)]

mod code;
mod line;
mod reject;
mod stop;

pub use code::Code;
pub use line::reject_line;
pub use reject::Reject;
pub use stop::Stop;
