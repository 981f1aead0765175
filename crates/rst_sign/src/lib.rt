//! The tool: runs the command that the words spell, over a desk that holds the files and a sink that takes the text.
#![tactic(auto)]

mod deliver;
pub mod laws;
mod top;

pub use rst_answer::{Answer, Outcome, Status};
pub use rst_reject::{Code, Reject};
pub use rst_verdict::Verdict;
pub use top::run;
