//! Verdicts on a design, and certificates: a verdict with the evidence that another run can check.
#![tactic(auto)]

mod cert;
mod verdict;

pub use cert::Cert;
pub use verdict::{Hops, Verdict};
