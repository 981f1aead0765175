//! Reads targets and statements from symbols.
#![tactic(auto)]

mod blocks;
mod parsed;
mod statements;
mod targets;

pub use parsed::{ParsedStmt, ParsedTarget};
pub use statements::{StmtAnswer, read_statement, statement};
pub use targets::{TargetAnswer, read_target};
