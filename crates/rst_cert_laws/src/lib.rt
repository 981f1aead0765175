//! What holds of the texts of certificates: laws alone.
#![tactic(auto)]

mod laws;

pub use laws::what_is_written_is_read;
