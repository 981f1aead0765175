//! Certificates taken from a desk, piece by piece.
#![tactic(auto)]

mod fault;
mod taking;

pub use fault::TakeFault;
pub use taking::take_cert;
