// Words bit by bit, and all bits of a word, on gates.
ghost use Rattle.std.specs.Prelude.{◌≡◌, ◌+◌, ◌^◌, ◌≤◌, length, map, replicate, true, OnOk, IfOk};
ghost use Rattle.std.specs.List.{All};
ghost use Rattle.rst_gate.specs.Circuits.{IsBelow};
ghost use Rattle.rst_gate.specs.GateLists.{next_node};
ghost use Rattle.rst_gate.specs.SharedGates.{turned};
ghost use Rattle.rst_terms.specs.Recurrences.{connected, each, reduced, chosen};
ghost use Rattle.rst_word_gates.specs.GateAlgebra.{gates_so_far};

use rst_gate::{Edge, GateBuilder};
use rst_outside::NoMemory;
use rst_terms::Connective;
use std::alloc::Global;

// The connective of two edges. `or` is an `and` with inverted edges.
pub fn connect(gates: &mut GateBuilder, op: Connective, a: Edge, b: Edge) -> Result<Edge, NoMemory>
    requires a_stands { IsBelow (next_node gates.old) a }
    requires b_stands { IsBelow (next_node gates.old) b }
    requires room { next_node gates.old + 1 ≤ 2 ^ 31 }
    ensures gates { OnOk result (gates.new ≡ (connected gates_so_far op gates.old a b).0) }
    ensures edge { IfOk result (λ e. e ≡ (connected gates_so_far op gates.old a b).1) }
    ensures stands { IfOk result (λ e. IsBelow (next_node gates.new) e) }
    ensures grows { OnOk result (next_node gates.old ≤ next_node gates.new) }
    ensures few { OnOk result (next_node gates.new ≤ next_node gates.old + 1) }
{
    match op {
        Connective::And => gates.and(a, b),
        Connective::Or => {
            let neither = gates.and(a.turned(true), b.turned(true))?;
            Ok(neither.turned(true))
        }
        Connective::Xor => gates.xor(a, b),
    }
}

// Two words of one width, bit by bit.
pub fn connect_each(
    alloc: Global,
    gates: &mut GateBuilder,
    op: Connective,
    a: &[Edge],
    b: &[Edge],
) -> Result<Vec<Edge>, NoMemory>
    requires one_width { length a.now ≡ length b.now }
    requires a_stands { All (IsBelow (next_node gates.old)) a.now }
    requires b_stands { All (IsBelow (next_node gates.old)) b.now }
    requires room { next_node gates.old + length a.now ≤ 2 ^ 31 }
    ensures gates { OnOk result (gates.new ≡ (each gates_so_far op gates.old a.now b.now).0) }
    ensures bits { IfOk result (λ r. r.items ≡ (each gates_so_far op gates.old a.now b.now).1) }
    ensures stand { IfOk result (λ r. All (IsBelow (next_node gates.new)) r.items) }
    ensures width { IfOk result (λ r. length r.items ≡ length a.now) }
    ensures grows { OnOk result (next_node gates.old ≤ next_node gates.new) }
    ensures few { OnOk result (next_node gates.new ≤ next_node gates.old + length a.now) }
{
    let mut bits = Vec::new(alloc);
    for i in 0..a.len() {
        let bit = connect(gates, op, a[i], b[i])?;
        bits.push(bit)?;
    }
    Ok(bits)
}

/// The connective over all bits of a word: the first bit itself, then the others in order. Of no
/// bits it is one for `and`, and zero else.
pub fn all_bits(gates: &mut GateBuilder, op: Connective, bits: &[Edge]) -> Result<Edge, NoMemory>
    requires stand { All (IsBelow (next_node gates.old)) bits.now }
    requires room { next_node gates.old + length bits.now ≤ 2 ^ 31 }
    ensures gates { OnOk result (gates.new ≡ (reduced gates_so_far op gates.old bits.now).0) }
    ensures edge { IfOk result (λ e. e ≡ (reduced gates_so_far op gates.old bits.now).1) }
    ensures stands { IfOk result (λ e. IsBelow (next_node gates.new) e) }
    ensures grows { OnOk result (next_node gates.old ≤ next_node gates.new) }
    ensures few { OnOk result (next_node gates.new ≤ next_node gates.old + length bits.now) }
{
    if bits.is_empty() {
        return Ok(Edge::constant(op == Connective::And));
    }
    let mut all = bits[0];
    for i in 1..bits.len() {
        all = connect(gates, op, all, bits[i])?;
    }
    Ok(all)
}

/// Each bit inverted. This asks for no gate.
pub fn invert(alloc: Global, word: &[Edge]) -> Result<Vec<Edge>, NoMemory>
    ensures { IfOk result (λ r. r.items ≡ map (turned true) word.now) }
{
    let mut bits = Vec::new(alloc);
    for i in 0..word.len() {
        bits.push(word[i].turned(true))?;
    }
    Ok(bits)
}

/// This many copies of an edge.
pub fn repeat(alloc: Global, edge: Edge, count: usize) -> Result<Vec<Edge>, NoMemory>
    ensures { IfOk result (λ r. r.items ≡ replicate count edge) }
{
    let edges = vec![in alloc; edge; count]?;
    Ok(edges)
}

/// The bits of `one` where the select is one, else those of `zero`, a word of the same width.
pub fn choose(
    alloc: Global,
    gates: &mut GateBuilder,
    select: Edge,
    one: &[Edge],
    zero: &[Edge],
) -> Result<Vec<Edge>, NoMemory>
    requires one_width { length one.now ≡ length zero.now }
    requires select_stands { IsBelow (next_node gates.old) select }
    requires one_stands { All (IsBelow (next_node gates.old)) one.now }
    requires zero_stands { All (IsBelow (next_node gates.old)) zero.now }
    requires room { next_node gates.old + length one.now ≤ 2 ^ 31 }
    ensures gates { OnOk result (gates.new ≡ (chosen gates_so_far gates.old select one.now zero.now).0) }
    ensures bits { IfOk result (λ r. r.items ≡ (chosen gates_so_far gates.old select one.now zero.now).1) }
    ensures stand { IfOk result (λ r. All (IsBelow (next_node gates.new)) r.items) }
    ensures width { IfOk result (λ r. length r.items ≡ length one.now) }
    ensures grows { OnOk result (next_node gates.old ≤ next_node gates.new) }
    ensures few { OnOk result (next_node gates.new ≤ next_node gates.old + length one.now) }
{
    let mut bits = Vec::new(alloc);
    for i in 0..one.len() {
        let bit = gates.mux(select, one[i], zero[i])?;
        bits.push(bit)?;
    }
    Ok(bits)
}
