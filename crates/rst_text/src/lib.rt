//! A text under way, as reports, refusals and sources are written: piece by piece, and line by line.
#![tactic(auto)]

mod text;

pub use text::Text;
