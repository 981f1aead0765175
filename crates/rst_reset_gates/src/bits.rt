// Words of edges: constants, nodes in a row, and words turned around.
ghost use Rattle.std.specs.Prelude.{◌≡◌, ◌+◌, ◌^◌, ◌≤◌, false, replicate, length, IfOk};
ghost use Rattle.rst_gate.specs.SharedGates.{constant_edge};
ghost use Rattle.rst_design_terms.specs.Designs.{turned};
ghost use Rattle.rst_design_terms.specs.Gates.{nodes_from};

use rst_gate::Edge;
use rst_outside::NoMemory;
use std::alloc::Global;

/// A word with its last bit first.
pub fn turned(alloc: Global, word: &[Edge]) -> Result<Vec<Edge>, NoMemory>
    ensures { IfOk result (λ r. r.items ≡ turned word.now) }
{
    let mut bits = Vec::new(alloc);
    for k in 0..word.len() {
        bits.push(word[word.len() - 1 - k])?;
    }
    Ok(bits)
}

/// A word of this many bits, all of them 0.
pub fn zeros(alloc: Global, width: u8) -> Result<Vec<Edge>, NoMemory>
    ensures { IfOk result (λ r. r.items ≡ replicate width (constant_edge false)) }
{
    let mut bits = Vec::new(alloc);
    for _ in 0..width {
        bits.push(Edge::constant(false))?;
    }
    Ok(bits)
}

/// The word of so many nodes from `first` on, the first of which is its most significant bit.
pub fn nodes(alloc: Global, first: u32, width: u8) -> Result<Vec<Edge>, NoMemory>
    requires { first + width ≤ 2 ^ 31 }
    ensures { IfOk result (λ r. r.items ≡ turned (nodes_from first width)) }
{
    let mut bits = Vec::new(alloc);
    for k in 0..width {
        bits.push(Edge {
            node: first + (width - 1 - k) as u32,
            inverted: false,
        })?;
    }
    Ok(bits)
}
