// The netlist.

ghost use Rattle.std.specs.Prelude.{◌≡◌, length, map, IfOk};
ghost use Rattle.rst_net.specs.Units.{plain_signal, plain_driver, plain_process};
ghost use Rattle.rst_weight.specs.Weights.{parts_weight};
ghost use Rattle.rst_flow.specs.Nets.{IsInOrder, HasFewBits, IsLight};

use rst_net::{Driver, Process, Signal};
use std::alloc::{AllocError, Global};

/// A flat design that passes all rows, its units in an order in which each reads only inputs, registers, bits of earlier units and,
/// in a block, that block's own bits. It has at most 512 bits of registers, 256 of inputs and 256 of outputs, and weighs at most
/// 16,384.
#[derive(Drop)]
pub struct Net {
    pub signals: Vec<Signal>,
    pub units: Vec<Driver>,
    pub clocked: Vec<Process>,
    /// The outputs of the top, in the order of the header.
    pub outputs: Vec<u32>,
    pub ghost in_order: { IsInOrder (length signals.items) (map plain_driver units.items) },
    pub ghost few: { HasFewBits (map plain_signal signals.items) outputs.items },
    pub ghost light: { IsLight (map plain_signal signals.items) (map plain_driver units.items) (map plain_process clocked.items) },
}

/// The weight of a netlist: how many gates its operators, statements and resets ask for.
pub fn weight(alloc: Global, net: &Net) -> Result<u64, AllocError>
    ensures { IfOk result (λ all. all ≡ parts_weight (map plain_signal net.now.signals.items) (map plain_driver net.now.units.items) (map plain_process net.now.clocked.items)) }
{
    rst_weight::weight(alloc, &net.signals, &net.units, &net.clocked)
}
