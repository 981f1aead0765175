// The gates of a netlist.
ghost use Rattle.std.specs.Prelude.{◌≡◌, ◌+◌, ◌^◌, ◌≤◌, length, OnOk, IfOk};
ghost use Rattle.rst_gate.specs.GateLists.{next_node};
ghost use Rattle.rst_cycle.specs.Signals.{width_of};
ghost use Rattle.rst_lower.specs.WireWords.{widths_of, WiresStand};
ghost use Rattle.rst_weight.specs.Weights.{weight};
ghost use Rattle.rst_design_terms.specs.Gates.{gates_of};
ghost use Rattle.rst_net_gates.specs.Netlists.{plain_net, IsLowerable, settled_bits, settled_weight};

use crate::blocks::{clocked, settle};
use crate::listing::{listed, registers};
use rst_flow::Net;
use rst_gate::{GateBuilder, Gates};
use rst_lower::Wires;
use rst_outside::NoMemory;
use rst_reset_gates::{input_bits, reset_wires, start_wires, state_bits};
use std::alloc::Global;

// The wires of a settled cycle: registers behind their resets, and what the units set.
fn settled(
    alloc: Global,
    gates: &mut GateBuilder,
    start: &Wires,
    net: &Net,
) -> Result<Wires, NoMemory>
    requires lowerable { IsLowerable (plain_net net.now) }
    requires stand { WiresStand (next_node gates.old) start.now }
    requires widths { widths_of start.now ≡ width_of (plain_net net.now).signals }
    requires count { length start.now ≡ length (plain_net net.now).signals }
    requires room { next_node gates.old + weight (plain_net net.now) ≤ 2 ^ 31 }
    ensures gates { OnOk result (gates.new ≡ (settled_bits (plain_net net.now) gates.old start.now).0) }
    ensures wires { IfOk result (λ wires. wires ≡ (settled_bits (plain_net net.now) gates.old start.now).1) }
    ensures stand { IfOk result (λ wires. WiresStand (next_node gates.new) wires) }
    ensures widths { IfOk result (λ wires. widths_of wires ≡ widths_of start.now) }
    ensures grows { OnOk result (next_node gates.old ≤ next_node gates.new) }
    ensures few { OnOk result (next_node gates.new ≤ next_node gates.old + settled_weight (plain_net net.now)) }
{
    let mut wires = reset_wires(alloc, gates, start, &net.signals, &net.clocked)?;
    settle(alloc, gates, &mut wires, &net.units)?;
    Ok(wires)
}

/// The gates of a netlist: inputs and states in bit order, then the muxes of resets in the order of the states, the units in their
/// order, and the clocked blocks. No two are equal, and there are at most as many as the netlist weighs.
pub fn lower(alloc: Global, net: &Net) -> Result<Gates, NoMemory>
    requires lowerable { IsLowerable (plain_net net.now) }
    ensures gates { IfOk result (λ gates. gates ≡ gates_of (plain_net net.now)) }
    ensures few { IfOk result (λ gates. length gates.gates ≤ weight (plain_net net.now)) }
{
    let inputs = input_bits(&net.signals);
    let states = state_bits(&net.signals);
    let mut gates = GateBuilder::new(alloc, inputs, states)?;
    let start = start_wires(alloc, &net.signals, inputs)?;
    let wires = settled(alloc, &mut gates, &start, net)?;
    let outs = listed(alloc, &wires, &net.outputs)?;
    let mut held = start;
    clocked(alloc, &mut gates, &wires, &mut held, &net.clocked)?;
    let numbers = registers(alloc, &net.signals)?;
    let nexts = listed(alloc, &held, &numbers)?;
    gates.finish(outs, nexts)
}
