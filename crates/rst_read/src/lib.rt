//! Reads expressions from symbols.
#![tactic(auto)]

mod expressions;
mod labels;
mod operators;
mod parsed;
mod stop;
mod terminals;
mod trees;

pub use expressions::{Answer, expression, read_expression};
pub use labels::labels_in;
pub use parsed::{MOST_HEIGHT, Many, Parsed};
pub use stop::Stop;
pub use terminals::{after, behind};
pub use trees::both_boxed;
