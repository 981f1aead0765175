// Sums on gates.
ghost use Rattle.std.specs.Prelude.{◌≡◌, ◌+◌, ◌*◌, ◌^◌, ◌≤◌, length, OnOk, IfOk};
ghost use Rattle.std.specs.List.{All};
ghost use Rattle.rst_gate.specs.Circuits.{IsBelow};
ghost use Rattle.rst_gate.specs.GateLists.{next_node};
ghost use Rattle.rst_terms.specs.Recurrences.{added, summed};
ghost use Rattle.rst_word_gates.specs.GateAlgebra.{gates_so_far};

use crate::bits::connect;
use rst_gate::{Edge, GateBuilder};
use rst_outside::NoMemory;
use rst_terms::Connective;
use std::alloc::Global;

// The bit of a sum, and the carry to the next.
#[tactic(auto, unfolding(rst_terms::specs::Recurrences::added))]
fn full_add(
    gates: &mut GateBuilder,
    a: Edge,
    b: Edge,
    carry: Edge,
) -> Result<(Edge, Edge), NoMemory>
    requires a_stands { IsBelow (next_node gates.old) a }
    requires b_stands { IsBelow (next_node gates.old) b }
    requires carry_stands { IsBelow (next_node gates.old) carry }
    requires room { next_node gates.old + 6 ≤ 2 ^ 31 }
    ensures gates { OnOk result (gates.new ≡ (added gates_so_far gates.old a b carry).state) }
    ensures bit { IfOk result (λ r. r.0 ≡ (added gates_so_far gates.old a b carry).bit) }
    ensures carry { IfOk result (λ r. r.1 ≡ (added gates_so_far gates.old a b carry).carry) }
    ensures bit_stands { IfOk result (λ r. IsBelow (next_node gates.new) r.0) }
    ensures carry_stands { IfOk result (λ r. IsBelow (next_node gates.new) r.1) }
    ensures grows { OnOk result (next_node gates.old ≤ next_node gates.new) }
    ensures few { OnOk result (next_node gates.new ≤ next_node gates.old + 6) }
{
    let odd = gates.xor(a, b)?;
    let bit = gates.xor(odd, carry)?;
    let both = gates.and(a, b)?;
    let one = connect(gates, Connective::Or, a, b)?;
    let passed = gates.and(carry, one)?;
    let next = connect(gates, Connective::Or, both, passed)?;
    Ok((bit, next))
}

/// The bits of `a + b + carry`, over words of one width. The gates of the last carry are asked for
/// too.
pub fn add(
    alloc: Global,
    gates: &mut GateBuilder,
    a: &[Edge],
    b: &[Edge],
    carry: Edge,
) -> Result<Vec<Edge>, NoMemory>
    requires one_width { length a.now ≡ length b.now }
    requires a_stands { All (IsBelow (next_node gates.old)) a.now }
    requires b_stands { All (IsBelow (next_node gates.old)) b.now }
    requires carry_stands { IsBelow (next_node gates.old) carry }
    requires room { next_node gates.old + 6 * length a.now ≤ 2 ^ 31 }
    ensures gates { OnOk result (gates.new ≡ (summed gates_so_far gates.old carry a.now b.now).state) }
    ensures bits { IfOk result (λ r. r.items ≡ (summed gates_so_far gates.old carry a.now b.now).bits) }
    ensures stand { IfOk result (λ r. All (IsBelow (next_node gates.new)) r.items) }
    ensures width { IfOk result (λ r. length r.items ≡ length a.now) }
    ensures grows { OnOk result (next_node gates.old ≤ next_node gates.new) }
    ensures few { OnOk result (next_node gates.new ≤ next_node gates.old + 6 * length a.now) }
{
    let mut bits = Vec::new(alloc);
    let mut carry = carry;
    for i in 0..a.len() {
        let (bit, next) = full_add(gates, a[i], b[i], carry)?;
        bits.push(bit)?;
        carry = next;
    }
    Ok(bits)
}
