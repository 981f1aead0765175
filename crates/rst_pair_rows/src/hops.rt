// Hops of one pair of states, made wide, and membership in a front's relation.
ghost use Rattle.std.specs.Prelude.{◌≡◌, ◌+◌, ◌++◌, None, Some, true, length, map, take, drop, IsTrue, IfOk};
ghost use Rattle.rst_value.specs.Terns.{known};
ghost use Rattle.rst_pair.specs.Aims.{Leads, LiesInNone};
ghost use Rattle.rst_pair.specs.Aims.Aim'.{Differ, Outside};
ghost use Rattle.rst_pair.specs.Hops.{cubes_of};

use rst_gate::{Bits, known_cube};
use rst_outside::NoMemory;
use rst_pair::{Front, Hop, Pair, Query, in_relation};
use rst_pose::is_posable;
use rst_sim::two_cycle;
use rst_widen::{widen_blocked, widen_freed};
use std::alloc::Global;

// Whether the input gives the two states different outputs.
fn tells_apart(
    alloc: Global,
    pair: &Pair,
    left: &[bool],
    right: &[bool],
    input: &[bool],
) -> Result<bool, NoMemory>
    requires left { length left.now ≡ pair.now.left.states }
    requires right { length right.now ≡ pair.now.right.states }
    requires input { length input.now ≡ pair.now.left.inputs }
    ensures { IfOk result (λ apart. IsTrue apart → Leads pair.now Differ input.now left.now right.now) }
{
    let left_gates = pair.left;
    let right_gates = pair.right;
    let first = two_cycle(alloc, left_gates, left, input)?;
    let second = two_cycle(alloc, right_gates, right, input)?;
    Ok(first.outs.as_slice() != second.outs.as_slice())
}

// Two states one after the other.
fn both(alloc: Global, left: &[bool], right: &[bool]) -> Result<Bits, NoMemory>
    ensures { IfOk result (λ bits. bits ≡ left.now ++ right.now) }
{
    let mut both = Vec::from_slice(alloc, left)?;
    both.extend_from_slice(right)?;
    Ok(Bits::from_vec(both))
}

// Whether the input leads the two states to a pair of the front's relation, and so into no blocked
// cube.
fn leads_out(
    alloc: Global,
    pair: &Pair,
    front: &Front,
    left: &[bool],
    right: &[bool],
    input: &[bool],
) -> Result<bool, NoMemory>
    requires left { length left.now ≡ pair.now.left.states }
    requires right { length right.now ≡ pair.now.right.states }
    requires input { length input.now ≡ pair.now.left.inputs }
    ensures { IfOk result (λ out. IsTrue out → Leads pair.now (Outside (cubes_of front.now.blocked)) input.now left.now right.now) }
{
    let left_gates = pair.left;
    let right_gates = pair.right;
    let first = two_cycle(alloc, left_gates, left, input)?;
    let second = two_cycle(alloc, right_gates, right, input)?;
    let next = both(alloc, first.nexts.as_slice(), second.nexts.as_slice())?;
    match related(pair, front, &next) {
        Some(true) => Ok(true),
        _ => Ok(false),
    }
}

// The hop of one pair without a next hop.
fn hop_of(alloc: Global, left: &[bool], right: &[bool], input: &[bool]) -> Result<Hop, NoMemory>
    ensures cube { IfOk result (λ hop. hop.cube ≡ map known (left.now ++ right.now)) }
    ensures input { IfOk result (λ hop. hop.input ≡ input.now) }
    ensures next { IfOk result (λ hop. hop.next ≡ None) }
{
    let pair = both(alloc, left, right)?;
    let cube = known_cube(alloc, pair.as_slice())?;
    let input = Bits::from_slice(alloc, input)?;
    Ok(Hop {
        cube,
        input,
        next: None,
    })
}

// The blocked hop of a pair that the input tells apart, made wide.
fn wide_hop(
    alloc: Global,
    pair: &Pair,
    front: &Front,
    left: &[bool],
    right: &[bool],
    input: &[bool],
) -> Result<Option<Hop>, NoMemory>
    requires left { length left.now ≡ pair.now.left.states }
    requires right { length right.now ≡ pair.now.right.states }
    requires input { length input.now ≡ pair.now.left.inputs }
{
    if !is_posable(pair, front, &Query::Stuck) {
        return Ok(None);
    }
    if !tells_apart(alloc, pair, left, right, input)? {
        return Ok(None);
    }
    let hop = hop_of(alloc, left, right, input)?;
    let wide = widen_blocked(alloc, pair, front, hop)?;
    Ok(Some(wide))
}

// The freed hop of a pair that the input leads into no blocked cube, made wide.
fn wide_freed_hop(
    alloc: Global,
    pair: &Pair,
    front: &Front,
    left: &[bool],
    right: &[bool],
    input: &[bool],
) -> Result<Option<Hop>, NoMemory>
    requires left { length left.now ≡ pair.now.left.states }
    requires right { length right.now ≡ pair.now.right.states }
    requires input { length input.now ≡ pair.now.left.inputs }
{
    if !is_posable(pair, front, &Query::Stuck) {
        return Ok(None);
    }
    if !leads_out(alloc, pair, front, left, right, input)? {
        return Ok(None);
    }
    let hop = hop_of(alloc, left, right, input)?;
    let wide = widen_freed(alloc, pair, front, hop)?;
    Ok(Some(wide))
}

// Whether states and input are ones of the pair.
fn fit(pair: &Pair, left: &[bool], right: &[bool], input: &[bool]) -> bool
    ensures left { IsTrue result → length left.now ≡ pair.now.left.states }
    ensures right { IsTrue result → length right.now ≡ pair.now.right.states }
    ensures input { IsTrue result → length input.now ≡ pair.now.left.inputs }
{
    let left_gates = pair.left;
    let right_gates = pair.right;
    left.len() == left_gates.states as usize
        && right.len() == right_gates.states as usize
        && input.len() == left_gates.inputs as usize
}

/// The blocked hop of a pair that the input tells apart, made wide; none where states or input don't
/// fit the pair, or aren't told apart.
pub fn blocked_hop(
    alloc: Global,
    pair: &Pair,
    front: &Front,
    left: &[bool],
    right: &[bool],
    input: &[bool],
) -> Result<Option<Hop>, NoMemory> {
    if fit(pair, left, right, input) {
        wide_hop(alloc, pair, front, left, right, input)
    } else {
        Ok(None)
    }
}

/// The freed hop of a pair that the input leads to one of the relation, made wide; none where states
/// or input don't fit the pair, or lead elsewhere.
pub fn freed_hop(
    alloc: Global,
    pair: &Pair,
    front: &Front,
    left: &[bool],
    right: &[bool],
    input: &[bool],
) -> Result<Option<Hop>, NoMemory> {
    if fit(pair, left, right, input) {
        wide_freed_hop(alloc, pair, front, left, right, input)
    } else {
        Ok(None)
    }
}

/// Whether a pair is one of the front's relation; nothing where it doesn't fit the designs, or the
/// sides have different numbers of registers.
pub(crate) fn related(pair: &Pair, front: &Front, both: &Bits) -> Option<bool>
    ensures { result ≡ Some true → LiesInNone (cubes_of front.now.blocked) (take pair.now.left.states both.now) (drop pair.now.left.states both.now) }
{
    let left_gates = pair.left;
    let right_gates = pair.right;
    let count = left_gates.states as usize;
    if right_gates.states as usize == count
        && both.len() == count + count
        && is_posable(pair, front, &Query::Stuck)
    {
        Some(in_relation(front, both))
    } else {
        None
    }
}
