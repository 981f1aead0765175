// Comparisons on gates.
ghost use Rattle.std.specs.Prelude.{◌≡◌, ◌+◌, ◌*◌, ◌^◌, ◌≤◌, ◌<◌, length, OnOk, IfOk};
ghost use Rattle.std.specs.List.{All};
ghost use Rattle.rst_gate.specs.Circuits.{IsBelow};
ghost use Rattle.rst_gate.specs.GateLists.{next_node};
ghost use Rattle.rst_terms.specs.Recurrences.{below, equal};
ghost use Rattle.rst_terms.specs.Operators.{top_inverted, less};
ghost use Rattle.rst_word_gates.specs.GateAlgebra.{gates_so_far};

use crate::bits::{all_bits, connect_each, invert};
use rst_gate::{Edge, GateBuilder};
use rst_outside::NoMemory;
use rst_terms::Connective;
use std::alloc::Global;

// Whether `a` is below `b`, both read as unsigned.
fn unsigned_less(
    gates: &mut GateBuilder,
    a: &[Edge],
    b: &[Edge],
    low: Edge,
) -> Result<Edge, NoMemory>
    requires one_width { length a.now ≡ length b.now }
    requires a_stands { All (IsBelow (next_node gates.old)) a.now }
    requires b_stands { All (IsBelow (next_node gates.old)) b.now }
    requires low_stands { IsBelow (next_node gates.old) low }
    requires room { next_node gates.old + 2 * length a.now ≤ 2 ^ 31 }
    ensures gates { OnOk result (gates.new ≡ (below gates_so_far gates.old low a.now b.now).0) }
    ensures edge { IfOk result (λ e. e ≡ (below gates_so_far gates.old low a.now b.now).1) }
    ensures stands { IfOk result (λ e. IsBelow (next_node gates.new) e) }
    ensures grows { OnOk result (next_node gates.old ≤ next_node gates.new) }
    ensures few { OnOk result (next_node gates.new ≤ next_node gates.old + 2 * length a.now) }
{
    let mut low = low;
    for i in 0..a.len() {
        let differ = gates.xor(a[i], b[i])?;
        low = gates.mux(differ, b[i], low)?;
    }
    Ok(low)
}

// The word with its top bit inverted.
fn invert_top(alloc: Global, word: &[Edge]) -> Result<Vec<Edge>, NoMemory>
    requires { 0 < length word.now }
    ensures { IfOk result (λ r. r.items ≡ top_inverted gates_so_far word.now) }
{
    let top = word.len() - 1;
    let mut bits = Vec::from_slice(alloc, &word[..top])?;
    bits.push(word[top].turned(true))?;
    Ok(bits)
}

/// Whether `a` is below `b`, words of one width, both read as signed or both as unsigned.
pub fn less(
    alloc: Global,
    gates: &mut GateBuilder,
    signed: bool,
    a: &[Edge],
    b: &[Edge],
) -> Result<Edge, NoMemory>
    requires some_bits { 0 < length a.now }
    requires one_width { length a.now ≡ length b.now }
    requires a_stands { All (IsBelow (next_node gates.old)) a.now }
    requires b_stands { All (IsBelow (next_node gates.old)) b.now }
    requires room { next_node gates.old + 2 * length a.now ≤ 2 ^ 31 }
    ensures gates { OnOk result (gates.new ≡ (less gates_so_far signed gates.old a.now b.now).0) }
    ensures edge { IfOk result (λ e. e ≡ (less gates_so_far signed gates.old a.now b.now).1) }
    ensures stands { IfOk result (λ e. IsBelow (next_node gates.new) e) }
    ensures grows { OnOk result (next_node gates.old ≤ next_node gates.new) }
    ensures few { OnOk result (next_node gates.new ≤ next_node gates.old + 2 * length a.now) }
{
    if signed {
        let one = invert_top(alloc, a)?;
        let other = invert_top(alloc, b)?;
        unsigned_less(
            gates,
            one.as_slice(),
            other.as_slice(),
            Edge::constant(false),
        )
    } else {
        unsigned_less(gates, a, b, Edge::constant(false))
    }
}

/// Whether two words of one width are equal: each `xor`, then the `and` of their inversions.
#[tactic(auto, unfolding(rst_terms::specs::Recurrences::equal))]
pub fn equal(
    alloc: Global,
    gates: &mut GateBuilder,
    a: &[Edge],
    b: &[Edge],
) -> Result<Edge, NoMemory>
    requires one_width { length a.now ≡ length b.now }
    requires a_stands { All (IsBelow (next_node gates.old)) a.now }
    requires b_stands { All (IsBelow (next_node gates.old)) b.now }
    requires room { next_node gates.old + 2 * length a.now ≤ 2 ^ 31 }
    ensures gates { OnOk result (gates.new ≡ (equal gates_so_far gates.old a.now b.now).0) }
    ensures edge { IfOk result (λ e. e ≡ (equal gates_so_far gates.old a.now b.now).1) }
    ensures stands { IfOk result (λ e. IsBelow (next_node gates.new) e) }
    ensures grows { OnOk result (next_node gates.old ≤ next_node gates.new) }
    ensures few { OnOk result (next_node gates.new ≤ next_node gates.old + 2 * length a.now) }
{
    let differ = connect_each(alloc, gates, Connective::Xor, a, b)?;
    let same = invert(alloc, differ.as_slice())?;
    all_bits(gates, Connective::And, same.as_slice())
}
