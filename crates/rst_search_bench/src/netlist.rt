// Netlists of so many gates and registers with one input.
ghost use Rattle.std.specs.Prelude.{◌≡◌, ◌+◌, ◌<◌, ◌≤◌, false, length, IfOk, OnOk};
ghost use Rattle.rst_gate.specs.Circuits.{IsBelow};
ghost use Rattle.rst_gate.specs.GateLists.{next_node};

use rst_gate::{Edge, GateBuilder, Gates};
use rst_outside::NoMemory;
use std::alloc::Global;

/// The most gates of a netlist here.
pub(crate) const GATES: u32 = 16_384;

fn plain(node: u32) -> Edge
    ensures { result ≡ record { node = node; inverted = false } }
{
    Edge {
        node,
        inverted: false,
    }
}

// A gate over the input, the register and the last gate, of a kind that goes by its number.
fn add_gate(
    builder: &mut GateBuilder,
    last: Edge,
    register: Edge,
    number: u32,
) -> Result<Edge, NoMemory>
    requires inputs { builder.old.inputs ≡ 1 }
    requires states { builder.old.states < 1000 }
    requires stands { IsBelow (next_node builder.old) last }
    requires register { IsBelow (next_node builder.old) register }
    requires room { length builder.old.gates < 20000 }
    ensures edge { IfOk result (λ e. IsBelow (next_node builder.new) e) }
    ensures kept { OnOk result ((builder.new.inputs ≡ 1) × (builder.new.states ≡ builder.old.states)) }
    ensures count { OnOk result (length builder.new.gates ≤ length builder.old.gates + 1) }
{
    let input = plain(1);
    if number % 3 == 0 {
        builder.xor(last, register)
    } else if number % 3 == 1 {
        builder.and(last, input)
    } else {
        builder.mux(input, last, register)
    }
}

/// The netlist, whose last gate is the first output and each register's next value. The second
/// output is the first register. Gate after gate reads register after register.
pub(crate) fn netlist(alloc: Global, gates: u32, registers: u32) -> Result<Gates, NoMemory>
    requires gates { gates ≤ 20000 }
    requires some { 0 < registers }
    requires few { registers < 1000 }
    ensures { IfOk result (λ g. (g.inputs ≡ 1) × (g.states ≡ registers)) }
{
    let mut builder = GateBuilder::new(alloc, 1, registers)?;
    let mut last = plain(2);
    for number in 0..gates {
        let register = plain(2 + number % registers);
        last = add_gate(&mut builder, last, register, number)?;
    }
    let outs = vec![in alloc; last, plain(2)]?;
    let nexts = vec![in alloc; last; registers as usize]?;
    builder.finish(outs, nexts)
}
