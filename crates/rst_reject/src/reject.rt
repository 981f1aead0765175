// Refusals.

use crate::code::Code;
use rst_outside::Name;

/// A refusal.
#[derive(Drop)]
pub struct Reject {
    /// Why the input is refused.
    pub code: Code,
    /// The number of the file, from 0, where the refusal is that of a file. Of a run it is the place of the file's word among the
    /// command's words.
    pub file: Option<u16>,
    /// What the refusal names; empty where it names nothing.
    pub name: Name,
    /// The line of the file, or the number of an item; 0 where there is none.
    pub number: u32,
}
