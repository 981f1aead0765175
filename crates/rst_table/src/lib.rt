//! Tables of rows for tests. A row is a line: what is asked, ` => `, and the answer that is expected.
#![tactic(auto)]

mod table;

pub use table::{Unlike, agree};
