//! The names of a module: what it declares, what its items use, and the refusals of elaboration (IEEE 1364-2001, clauses 3 and
//! 12.3).
#![tactic(auto)]

mod facts;
mod faults;
mod forms;
mod names;
mod same;

pub use facts::{Declared, Facts, Summary, facts_of};
pub use faults::{ElabCode, ElabError, ElabFault, refusal};
pub use forms::{Declaration, Form, declarations};
pub use names::{NameTest, first_in, first_in_stmt, first_in_target};
pub use same::same_range;
