// The gates of small texts, and what they show, in words that can be compared.
ghost use Rattle.std.specs.Prelude.{◌≤◌, length, IfOk, IfSome};
ghost use Rattle.std.specs.List.{All};
ghost use Rattle.rst_design.specs.Texts.{IsShort};
ghost use Rattle.rst_net_gates.specs.Netlists.{plain_net, IsLowerable};

use rst_design::read_design;
use rst_flow::Net;
use rst_gate::{Edge, Gate, Gates};
use rst_net_gates::lower;
use rst_reject::Stop;
use rst_sim::tern_cycle;
use rst_source_machine::laws::nets_are_sources;
use rst_value::Tern;
use std::alloc::{AllocError, Global};
use std::test::Fail;

// The netlist of a text below its module `t`. It has gates.
fn net_of(alloc: Global, files: &[Vec<u8>], clock: Option<&[u8]>) -> Result<Net, Stop>
    requires short { All IsShort files.now }
    requires few { length files.now ≤ 64 }
    ensures { IfOk result (λ net. IsLowerable (plain_net net)) }
{
    nets_are_sources();
    read_design(alloc, files, b"t", clock)
}

// A text as the one file of a design.
fn file_of(alloc: Global, text: &str) -> Option<Vec<Vec<u8>>>
    ensures few { IfSome result (λ files. length files.items ≤ 64) }
    ensures short { IfSome result (λ files. All IsShort files.items) }
{
    if text.len() > 1_048_576 {
        return None;
    }
    let file = Vec::from_slice(alloc, text.as_bytes()).ok()?;
    let mut files = Vec::new(alloc);
    files.push(file).ok()?;
    Some(files)
}

/// The gates of a text below its module `t`, with the clock `clk` where it has one.
pub(crate) fn gates_of(alloc: Global, text: &str, clock: Option<&str>) -> Result<Gates, Fail> {
    let files = file_of(alloc, text).ok_or("files")?;
    let clock = clock.map(|name| name.as_bytes());
    let net = net_of(alloc, &files, clock).ok().ok_or("no netlist")?;
    let gates = lower(alloc, &net).ok().ok_or("memory")?;
    Ok(gates)
}

fn put_edge(alloc: Global, told: &mut String, edge: Edge) -> Result<(), AllocError> {
    let sign = if edge.inverted { " ~" } else { " " };
    told.push_str(sign)?;
    let node = edge.node.to_string(alloc)?;
    told.push_str(node.as_str())
}

fn put_gate(alloc: Global, told: &mut String, gate: Gate) -> Result<(), AllocError> {
    match gate {
        Gate::And(a, b) => {
            told.push_str("and")?;
            put_edge(alloc, told, a)?;
            put_edge(alloc, told, b)?;
        }
        Gate::Xor(a, b) => {
            told.push_str("xor")?;
            put_edge(alloc, told, a)?;
            put_edge(alloc, told, b)?;
        }
        Gate::Mux(select, one, zero) => {
            told.push_str("mux")?;
            put_edge(alloc, told, select)?;
            put_edge(alloc, told, one)?;
            put_edge(alloc, told, zero)?;
        }
    }
    told.push_str(", ")
}

fn put_edges(alloc: Global, told: &mut String, edges: &[Edge]) -> Result<(), AllocError> {
    for edge in edges {
        put_edge(alloc, told, *edge)?;
    }
    Ok(())
}

/// Gates in a line: each, the edges of the outputs, and those of the next states.
pub(crate) fn told(alloc: Global, gates: &Gates) -> Result<String, AllocError> {
    let mut told = String::new(alloc);
    for gate in &gates.gates {
        put_gate(alloc, &mut told, *gate)?;
    }
    told.push_str("outs")?;
    put_edges(alloc, &mut told, &gates.outs)?;
    told.push_str(", nexts")?;
    put_edges(alloc, &mut told, &gates.nexts)?;
    Ok(told)
}

fn places_of(alloc: Global, word: &str) -> Result<Vec<Tern>, AllocError> {
    let mut places = Vec::new(alloc);
    for byte in word.as_bytes() {
        let place = match *byte {
            b'0' => Tern::Zero,
            b'1' => Tern::One,
            _ => Tern::Unknown,
        };
        places.push(place)?;
    }
    Ok(places)
}

fn put_places(told: &mut String, places: &[Tern]) -> Result<(), AllocError> {
    for place in places {
        let one = match place {
            Tern::Zero => "0",
            Tern::One => "1",
            Tern::Unknown => "x",
        };
        told.push_str(one)?;
    }
    Ok(())
}

/// What gates show in a cycle and where they lead, in three values, each word in bit order.
pub(crate) fn cycle(
    alloc: Global,
    gates: &Gates,
    state: &str,
    input: &str,
) -> Result<String, Fail> {
    let state = places_of(alloc, state)?;
    let input = places_of(alloc, input)?;
    if state.len() != gates.states as usize || input.len() != gates.inputs as usize {
        return Ok(String::from_str(alloc, "other widths")?);
    }
    let frame = tern_cycle(alloc, gates, &state, &input)
        .ok()
        .ok_or("memory")?;
    let mut told = String::new(alloc);
    put_places(&mut told, &frame.outs)?;
    told.push_str(" ")?;
    put_places(&mut told, &frame.nexts)?;
    Ok(told)
}
