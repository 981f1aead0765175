//! The report of a verdict as JSON.
#![tactic(auto)]

mod laws;
mod object;
mod report;
mod values;

pub use laws::{names_stand, reports_have_their_shape};
pub use report::report_json;
