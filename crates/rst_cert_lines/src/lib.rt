//! Lines of certificates, read.
#![tactic(auto)]

mod cursor;
mod laws;
mod lines;

pub use cursor::{Cursor, LineFault};
pub use laws::{what_is_read_is_written, what_is_written_is_read};
pub use lines::{Place, Shape, clause, counted, entry, free_step, hop_line, state, step};
