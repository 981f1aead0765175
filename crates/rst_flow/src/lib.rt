//! From a flat design to a netlist with one settled valuation: the rows that a flat design has to pass behind elaboration, and the
//! order of its units.
#![tactic(auto)]

mod drives;
mod edges;
mod flowing;
mod loops;
mod net;
mod ordering;
mod ranks;

pub use flowing::{FlowError, flow};
pub use net::{Net, weight};
