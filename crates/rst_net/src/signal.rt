// Signals.

use rst_outside::Name;
use rst_width::SignalShape;

/// What drives a signal: the first of these that applies.
#[derive(Clone, Copy, Debug, PartialEq, Eq)]
pub enum Role {
    /// The clock of the top, or an input that a whole link joins to a clock.
    Clock,
    /// Another input of the top.
    Input,
    /// A clocked block sets it.
    Register,
    /// A combinational block sets it.
    Block,
    /// Another driver: an assign, or a link.
    Wire,
    /// Nothing drives it.
    Idle,
}

/// A signal of the flat design. The name of one of the top is its own name; below the top it is the path of the instance and
/// the name, joined by `.`.
#[derive(Drop)]
pub struct Signal {
    pub name: Name,
    pub shape: SignalShape,
    pub role: Role,
}

/// Bits of a signal: its number, the place of the lowest bit, counted from the signal's own lowest bit, and how many.
#[derive(Clone, Copy, Debug, PartialEq, Eq)]
pub struct Slice {
    pub signal: u32,
    pub low: u8,
    pub width: u8,
}
