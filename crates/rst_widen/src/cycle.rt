// A three-valued cycle whose lists are used again, so that none is made for it.

ghost use Rattle.std.specs.Prelude.{◌≡◌, ◌+◌, length, map, OnOk};
ghost use Rattle.std.specs.List.{All};
ghost use Rattle.rst_gate.specs.Operations.{on_terns};
ghost use Rattle.rst_gate.specs.Circuits.{IsBelow, ReadsBelow, IsInOrder};
ghost use Rattle.rst_gate.specs.Nodes.{edge_value, gate_value, values_behind};
ghost use Rattle.rst_gate.specs.GateMachines.{terns_of};

use rst_gate::{Edge, Frame, Gate, Gates};
use rst_outside::NoMemory;
use rst_value::{Tern, tern_and, tern_mux, tern_not, tern_xor};

// The value of an edge.
fn edge_of(values: &[Tern], edge: Edge) -> Tern
    requires { IsBelow (length values.now) edge }
    ensures { result ≡ edge_value on_terns values.now edge }
{
    let value = values[edge.node as usize];
    if edge.inverted {
        tern_not(value)
    } else {
        value
    }
}

// The value of a gate.
fn gate_of(values: &[Tern], gate: Gate) -> Tern
    requires { ReadsBelow (length values.now) gate }
    ensures { result ≡ gate_value on_terns values.now gate }
{
    match gate {
        Gate::And(a, b) => tern_and(edge_of(values, a), edge_of(values, b)),
        Gate::Xor(a, b) => tern_xor(edge_of(values, a), edge_of(values, b)),
        Gate::Mux(select, one, zero) => tern_mux(
            edge_of(values, select),
            edge_of(values, one),
            edge_of(values, zero),
        ),
    }
}

// The values of all nodes, behind those before the gates.
fn add_gates(nodes: &mut Vec<Tern>, gates: &[Gate]) -> Result<(), NoMemory>
    requires in_order { IsInOrder (length nodes.old.items) gates.now }
    ensures values { OnOk result (nodes.new.items ≡ values_behind on_terns gates.now nodes.old.items) }
    ensures count { OnOk result (length nodes.new.items ≡ length nodes.old.items + length gates.now) }
{
    for gate in gates {
        let value = gate_of(nodes.as_slice(), *gate);
        nodes.push(value)?;
    }
    Ok(())
}

// The values of edges, in place of what the list held.
fn read_into(list: &mut Vec<Tern>, values: &[Tern], edges: &[Edge]) -> Result<(), NoMemory>
    requires below { All (IsBelow (length values.now)) edges.now }
    ensures { OnOk result (list.new.items ≡ map (edge_value on_terns values.now) edges.now) }
{
    list.clear();
    for edge in edges {
        list.push(edge_of(values, *edge))?;
    }
    Ok(())
}

/// One cycle in three values, in place of what the frame held. The nodes' list is used for the
/// values on the way. Lists that have held a cycle of the same gates ask for no memory.
pub(crate) fn cycle_into(
    gates: &Gates,
    state: &[Tern],
    input: &[Tern],
    nodes: &mut Vec<Tern>,
    frame: &mut Frame<Tern>,
) -> Result<(), NoMemory>
    requires state { length state.now ≡ gates.now.states }
    requires input { length input.now ≡ gates.now.inputs }
    ensures outs { OnOk result (frame.new.outs ≡ (terns_of gates.now).out state.now input.now) }
    ensures nexts { OnOk result (frame.new.nexts ≡ (terns_of gates.now).step state.now input.now) }
    ensures each_out { OnOk result (length frame.new.outs ≡ length gates.now.outs) }
    ensures each_next { OnOk result (length frame.new.nexts ≡ gates.now.states) }
{
    nodes.clear();
    nodes.push(Tern::Zero)?;
    nodes.extend_from_slice(input)?;
    nodes.extend_from_slice(state)?;
    add_gates(nodes, gates.gates.as_slice())?;
    let values = nodes.as_slice();
    read_into(&mut frame.outs, values, gates.outs.as_slice())?;
    read_into(&mut frame.nexts, values, gates.nexts.as_slice())?;
    Ok(())
}
