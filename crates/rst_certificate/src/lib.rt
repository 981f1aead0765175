//! The text of a certificate, whole and in pieces.
#![tactic(auto)]

mod atom;
mod giving;
mod line;
mod piece;
mod plan;
mod section;
mod unwritten;
mod writer;

pub use giving::give_cert;
pub use writer::{CertWriter, cert_text};
