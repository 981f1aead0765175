// The flat design.

use crate::signal::Signal;
use crate::unit::{Driver, Process};

/// A design without hierarchy: what results when each instance is replaced by the items of its module.
///
/// Signals stand in flat order: instances in pre-order from the top, in each instance its ports in the order of the header and
/// then its other signals in the order of the text. Units and clocked blocks stand in flat order too.
#[derive(Drop)]
pub struct Flat {
    pub signals: Vec<Signal>,
    pub units: Vec<Driver>,
    pub clocked: Vec<Process>,
    /// The outputs of the top, in the order of the header.
    pub outputs: Vec<u32>,
}
