// States of both sides, from the free bits of a query.

ghost use Rattle.std.specs.Prelude.{◌≡◌, ◌++◌, false, if◌then◌else◌, IfOk, slice_index_or};
ghost use Rattle.rst_pair.specs.Queries.{sharing_state};
ghost use Rattle.rst_pair.specs.Sides.{AreSides};

use rst_gate::Bits;
use rst_outside::NoMemory;
use rst_pair::Pair;
use std::alloc::Global;

// The bit at a place. Behind the end it is 0.
pub(crate) fn bit_at(bits: &[bool], i: usize) -> bool
    ensures { result ≡ slice_index_or bits.now i false }
{
    if i < bits.len() { bits[i] } else { false }
}

fn choice(first: bool, a: bool, b: bool) -> bool
    ensures { result ≡ (if first then a else b) }
{
    if first { a } else { b }
}

// One free bit, where the register isn't marked.
fn free_at(marked: bool) -> usize
    ensures { result ≡ (if marked then 0 else 1) }
{
    if marked { 0 } else { 1 }
}

// The state of so many registers that has the left state's bits where registers are marked, and
// elsewhere the next of these.
pub(crate) fn sharing_state(
    alloc: Global,
    count: u32,
    marks: &[bool],
    left: &[bool],
    bits: &[bool],
) -> Result<Vec<bool>, NoMemory>
    ensures { IfOk result (λ state. state.items ≡ sharing_state count marks.now left.now bits.now) }
{
    let mut state = Vec::new(alloc);
    let mut next = 0;
    for i in 0..count {
        let place = i as usize;
        let marked = bit_at(marks, place);
        let shared = bit_at(left, place);
        let free = bit_at(bits, next);
        state.push(choice(marked, shared, free))?;
        next += free_at(marked);
    }
    Ok(state)
}

// The edges of both sides name nodes, and their ports are equal.
pub(crate) fn are_sides(pair: &Pair)
    ensures { AreSides pair.now }
{
    let left = pair.left;
    let right = pair.right;
    let _first = left.states;
    let _second = right.states;
}

// The left state's bits, then the right one's.
pub(crate) fn joined(alloc: Global, left: &[bool], right: &[bool]) -> Result<Bits, NoMemory>
    ensures { IfOk result (λ both. both ≡ left.now ++ right.now) }
{
    let mut both = Vec::from_slice(alloc, left)?;
    both.extend_from_slice(right)?;
    Ok(Bits::from_vec(both))
}
