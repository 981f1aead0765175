//! What a question is answered: a verdict with its report and its certificate, or rows of known registers.
#![tactic(auto)]

mod head;
mod replies;

pub use replies::{reply_check, reply_demo, reply_known};
