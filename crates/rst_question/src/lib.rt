//! The question that a script asks of a design: both read from their texts, with the pattern of inputs that the script gives the
//! design, or the first refusal.
#![tactic(auto)]

mod question;
mod reading;

pub use question::{Places, Question};
pub use reading::read_question;
