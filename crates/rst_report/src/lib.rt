//! What a run prints of a verdict for its reader: the report as a text, and rows of values cycle by cycle.
#![tactic(auto)]

mod head;
mod report;
mod rows;

pub use head::{Head, Ports, copied_ports, width_sum};
pub use report::report_text;
pub use rows::{digit, known_rows};
