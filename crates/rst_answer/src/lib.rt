//! What a run answers: its status and what it keeps, the texts that it puts, and what is due before anything is written.
#![tactic(auto)]

mod answer;
mod ready;

pub use answer::{Answer, Outcome, Status};
pub use ready::{Ready, put_only, refused, unread, usage};
