// The order in which places are widened.

ghost use Rattle.std.specs.Prelude.{◌≡◌, ◌+◌, length, IfOk};
ghost use Rattle.rst_widen.specs.Widening.{IsOrder};

use rst_gate::{Edge, Gate, Gates};
use rst_outside::NoMemory;
use std::alloc::Global;

// Counts one reader more where the edge is a register's, the registers being the nodes behind the inputs.
fn count_reader(counts: &mut [u32], inputs: u32, edge: Edge)
    ensures { length counts.new ≡ length counts.old }
{
    if inputs < edge.node {
        let register = (edge.node - inputs - 1) as usize;
        if register < counts.len() {
            counts[register] = counts[register].saturating_add(1);
        }
    }
}

fn count_readers(counts: &mut [u32], inputs: u32, gate: Gate)
    ensures { length counts.new ≡ length counts.old }
{
    match gate {
        Gate::And(a, b) | Gate::Xor(a, b) => {
            count_reader(counts, inputs, a);
            count_reader(counts, inputs, b);
        }
        Gate::Mux(select, one, zero) => {
            count_reader(counts, inputs, select);
            count_reader(counts, inputs, one);
            count_reader(counts, inputs, zero);
        }
    }
}

// Of each register, how many gates read it.
fn readers(alloc: Global, gates: &Gates) -> Result<Vec<u32>, NoMemory>
    ensures { IfOk result (λ counts. length counts.items ≡ gates.now.states) }
{
    let mut counts = vec![in alloc; 0; gates.states as usize]?;
    for gate in gates.gates.as_slice() {
        count_readers(&mut counts, gates.inputs, *gate);
    }
    Ok(counts)
}

fn first_places(alloc: Global, count: usize) -> Result<Vec<usize>, NoMemory>
    ensures { IfOk result (λ places. IsOrder count places.items) }
{
    let mut places = Vec::new(alloc);
    for i in 0..count {
        places.push(i)?;
    }
    Ok(places)
}

/// The places of a cube of pairs, those of registers with the fewest readers first.
pub(crate) fn order_of(alloc: Global, left: &Gates, right: &Gates) -> Result<Vec<usize>, NoMemory>
    ensures { IfOk result (λ places. IsOrder (left.now.states + right.now.states) places.items) }
{
    let mut counts = readers(alloc, left)?;
    let more = readers(alloc, right)?;
    counts.extend_from_slice(more.as_slice())?;
    let mut places = first_places(alloc, counts.len())?;
    let counts = counts.as_slice();
    places.sort_by_key(|place| counts.get(*place).copied().unwrap_or(0))?;
    Ok(places)
}
