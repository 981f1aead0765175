// Products on gates.
ghost use Rattle.std.specs.Prelude.{◌≡◌, ◌+◌, ◌*◌, ◌^◌, ◌≤◌, length, OnOk, IfOk};
ghost use Rattle.std.specs.List.{All};
ghost use Rattle.rst_gate.specs.Circuits.{IsBelow};
ghost use Rattle.rst_gate.specs.GateLists.{next_node};
ghost use Rattle.rst_terms.specs.Recurrences.{masked, product};
ghost use Rattle.rst_word_gates.specs.GateAlgebra.{gates_so_far};

use crate::bits::repeat;
use crate::sums::add;
use rst_gate::{Edge, GateBuilder};
use rst_outside::NoMemory;
use std::alloc::Global;

// Each bit of a word and one bit.
fn mask(
    alloc: Global,
    gates: &mut GateBuilder,
    bit: Edge,
    word: &[Edge],
) -> Result<Vec<Edge>, NoMemory>
    requires bit_stands { IsBelow (next_node gates.old) bit }
    requires word_stands { All (IsBelow (next_node gates.old)) word.now }
    requires room { next_node gates.old + length word.now ≤ 2 ^ 31 }
    ensures gates { OnOk result (gates.new ≡ (masked gates_so_far gates.old bit word.now).0) }
    ensures bits { IfOk result (λ r. r.items ≡ (masked gates_so_far gates.old bit word.now).1) }
    ensures stand { IfOk result (λ r. All (IsBelow (next_node gates.new)) r.items) }
    ensures width { IfOk result (λ r. length r.items ≡ length word.now) }
    ensures grows { OnOk result (next_node gates.old ≤ next_node gates.new) }
    ensures few { OnOk result (next_node gates.new ≤ next_node gates.old + length word.now) }
{
    let mut bits = Vec::new(alloc);
    for i in 0..word.len() {
        let masked = gates.and(word[i], bit)?;
        bits.push(masked)?;
    }
    Ok(bits)
}

/// The product of two words of one width.
pub fn multiply(
    alloc: Global,
    gates: &mut GateBuilder,
    a: &[Edge],
    b: &[Edge],
) -> Result<Vec<Edge>, NoMemory>
    requires one_width { length a.now ≡ length b.now }
    requires width { length a.now ≤ 64 }
    requires a_stands { All (IsBelow (next_node gates.old)) a.now }
    requires b_stands { All (IsBelow (next_node gates.old)) b.now }
    requires room { next_node gates.old + 7 * length a.now * length a.now ≤ 2 ^ 31 }
    ensures gates { OnOk result (gates.new ≡ (product gates_so_far gates.old a.now b.now).0) }
    ensures bits { IfOk result (λ r. r.items ≡ (product gates_so_far gates.old a.now b.now).1) }
    ensures stand { IfOk result (λ r. All (IsBelow (next_node gates.new)) r.items) }
    ensures width { IfOk result (λ r. length r.items ≡ length a.now) }
    ensures grows { OnOk result (next_node gates.old ≤ next_node gates.new) }
    ensures few { OnOk result (next_node gates.new ≤ next_node gates.old + 7 * length a.now * length a.now) }
{
    let mut total = repeat(alloc, Edge::constant(false), a.len())?;
    for i in 0..b.len() {
        let part = mask(alloc, gates, b[i], &a[..a.len() - i])?;
        let mut moved = repeat(alloc, Edge::constant(false), i)?;
        moved.extend_from_slice(part.as_slice())?;
        total = add(
            alloc,
            gates,
            total.as_slice(),
            moved.as_slice(),
            Edge::constant(false),
        )?;
    }
    Ok(total)
}
