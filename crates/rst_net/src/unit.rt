// Units and clocked blocks.

use crate::stmt::{TypedSet, TypedStmt};
use rst_outside::Name;

/// An `always` block of the flat design.
#[derive(Drop)]
pub struct Process {
    pub body: Box<TypedStmt>,
    /// The names of the event list in the order of the text; none for `@*` and for a clocked block.
    pub listens: Option<Vec<u32>>,
    /// The path of its instance: for the top, the top's own name.
    pub path: Name,
    /// The number of its item in the module, from 1.
    pub item: u32,
    /// The reset of a clocked block in reset form.
    pub reset: Option<Reset>,
}

/// The reset of a clocked block: the input of the top, and the level at which it holds.
#[derive(Clone, Copy, Debug, PartialEq, Eq)]
pub struct Reset {
    pub signal: u32,
    pub level: bool,
}

/// A unit: an assign or a link, or a combinational block.
#[derive(Drop)]
pub enum Driver {
    Assign(Box<TypedSet>),
    Process(Box<Process>),
}
