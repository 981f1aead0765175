// The gates of designs.
ghost use Rattle.std.specs.List.{All};
ghost use Rattle.rst_design.specs.Texts.{IsShort};
ghost use Rattle.rst_net_gates.specs.Netlists.{plain_net, IsLowerable};

use crate::files::texts_of;
use crate::nets::{net_in, net_of};
use crate::printing::print_stop;
use rst_flow::Net;
use rst_gate::{Edge, Gate, Gates};
use rst_net_gates::lower;
use rst_reject::Stop;
use std::alloc::Global;
use std::io;
use std::rt::Files;

/// The gates of these files below the top, or the refusal.
pub(crate) fn gates_of<R: Files + AllocGlobal>(
    rt: &R,
    top: &str,
    clock: &str,
    files: &[String],
) -> Result<Gates, Stop> {
    let net = net_of(rt, top, clock, files)?;
    Ok(lower(rt.alloc(), &net)?)
}

fn print_edge<R: Print>(rt: &R, edge: Edge) -> io::Result<()> {
    let sign = if edge.inverted { "~" } else { "" };
    print!(rt; " {sign}{}", edge.node)
}

// Prints edges behind a word.
fn print_edges<R: Print>(rt: &R, word: &str, edges: &[Edge]) -> io::Result<()> {
    print!(rt; "{word}")?;
    for edge in edges {
        print_edge(rt, *edge)?;
    }
    println!(rt; "")
}

fn print_gate<R: Print>(rt: &R, node: usize, gate: Gate) -> io::Result<()> {
    print!(rt; "{node} ")?;
    match gate {
        Gate::And(a, b) => print_edges(rt, "and", &[a, b]),
        Gate::Xor(a, b) => print_edges(rt, "xor", &[a, b]),
        Gate::Mux(select, one, zero) => print_edges(rt, "mux", &[select, one, zero]),
    }
}

fn print_gates<R: Print>(rt: &R, gates: &Gates) -> io::Result<()> {
    println!(rt; "inputs {}", gates.inputs)?;
    println!(rt; "states {}", gates.states)?;
    let mut node = 1 + gates.inputs as usize + gates.states as usize;
    for gate in &gates.gates {
        print_gate(rt, node, *gate)?;
        node = node.saturating_add(1);
    }
    print_edges(rt, "outs", &gates.outs)?;
    print_edges(rt, "nexts", &gates.nexts)
}

/// Prints the gates of these files below the top, one a line, or the refusal.
pub(crate) fn gates<R: Files + Print + AllocGlobal>(
    rt: &R,
    top: &str,
    clock: &str,
    files: &[String],
) -> io::Result<()> {
    match gates_of(rt, top, clock, files) {
        Ok(gates) => print_gates(rt, &gates),
        Err(stop) => print_stop(rt, &stop),
    }
}

// How many gates a netlist has, 0 without memory.
fn number_of(alloc: Global, net: &Net) -> usize
    requires { IsLowerable (plain_net net.now) }
{
    match lower(alloc, net) {
        Ok(gates) => gates.gates.len(),
        Err(_) => 0,
    }
}

// Lowers a netlist so many times. How many gates it has.
fn lower_often(alloc: Global, net: &Net, times: usize) -> usize
    requires { IsLowerable (plain_net net.now) }
{
    let mut number = 0usize;
    for _ in 0..times {
        number = number_of(alloc, net);
    }
    number
}

// Reads the design of these texts so many times and lowers it so many times. How many gates it has, 0 without any.
fn read_often(
    alloc: Global,
    texts: &[Vec<u8>],
    top: &str,
    clock: &str,
    reads: usize,
    times: usize,
) -> usize
    requires { All IsShort texts.now }
{
    let mut number = 0usize;
    for _ in 0..reads {
        number = match net_in(alloc, texts, top, clock) {
            Ok(net) => lower_often(alloc, &net, times),
            Err(_) => 0,
        };
    }
    number
}

/// For measurements: reads the design of these files so many times and lowers it so many times, and prints how many gates it has.
pub(crate) fn time<R: Files + Print + AllocGlobal>(
    rt: &R,
    reads: usize,
    times: usize,
    top: &str,
    clock: &str,
    files: &[String],
) -> io::Result<()> {
    let number = match texts_of(rt, files) {
        Some(texts) => read_often(rt.alloc(), &texts, top, clock, reads, times),
        None => 0,
    };
    println!(rt; "gates {number}")
}
