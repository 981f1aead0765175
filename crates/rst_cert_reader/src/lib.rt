//! Reads certificates.
#![tactic(auto)]

mod gathered;
mod heading;
mod laws;
mod line;
mod reader;
mod section;
mod stage;

pub use gathered::Gathered;
pub use heading::{CertKind, HeadLine, Heading};
pub use laws::what_is_read_is_written;
pub use line::Line;
pub use reader::{CertFault, CertReader, read_cert};
pub use section::Section;
pub use stage::Stage;
