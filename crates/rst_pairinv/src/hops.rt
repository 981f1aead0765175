// The blocked hop of one pair of states: where its input leads, and its cube made wide.

ghost use Rattle.std.specs.Prelude.{◌≡◌, ◌^◌, ◌<◌, ◌≤◌, ◌++◌, ℕ, true, map, length, IfOk, IfSome, IfNone};
ghost use Rattle.std.specs.List.{All, AllZip};
ghost use Rattle.std.specs.Option.{ForSome};
ghost use Rattle.rst_value.specs.Terns.{known, StandsFor};
ghost use Rattle.rst_pair.specs.Sides.{IsPair, Holds};
ghost use Rattle.rst_pair.specs.Aims.{Leads};
ghost use Rattle.rst_pair.specs.Hops.{AreHops, blocked_aim, cube_at, cubes_of};
ghost use Rattle.rst_pair.specs.Fronts.{IsFront};
ghost use Rattle.rst_pairinv.specs.Blocking.{IsBlockedHop};
ghost use Rattle.rst_pairinv.specs.Turns.{Leaves, IsCycle};

use crate::states::{are_sides, joined};
use rst_gate::{Bits, has, known_cube};
use rst_outside::NoMemory;
use rst_pair::{Front, Hop, Pair};
use rst_sim::two_cycle;
use rst_widen::widen_blocked;
use std::alloc::Global;

// The first hop whose cube holds the pair.
fn first_with(hops: &[Hop], both: &Bits) -> Option<u32>
    requires few { length hops.now < 2 ^ 32 }
    requires wide { All (λ cube. length cube ≡ length both.now) (cubes_of hops.now) }
    ensures found { IfSome result (λ k. (k < length hops.now) × AllZip StandsFor (cube_at hops.now k) both.now) }
    ensures none { IfNone result ((i : ℕ) → i < length hops.now → AllZip StandsFor (cube_at hops.now i) both.now → ⊥) }
{
    for i in 0..hops.len() {
        let cube = &hops[i].cube;
        if has(cube, both) {
            return Some(i as u32);
        }
    }
    None
}

// What one cycle of both sides shows of a pair: whether the outputs differ, and the successors.
#[derive(Drop)]
pub(crate) struct Cycle {
    pub(crate) differ: bool,
    pub(crate) successors: Bits,
}

pub(crate) fn cycle_of(
    alloc: Global,
    pair: &Pair,
    input: &[bool],
    left: &[bool],
    right: &[bool],
) -> Result<Cycle, NoMemory>
    requires input { length input.now ≡ pair.now.left.inputs }
    requires states { IsPair pair.now left.now right.now }
    ensures { IfOk result (λ it. IsCycle pair.now input.now left.now right.now it) }
{
    let left_gates = pair.left;
    let right_gates = pair.right;
    let first = two_cycle(alloc, left_gates, left, input)?;
    let second = two_cycle(alloc, right_gates, right, input)?;
    let differ = first.outs.as_slice() != second.outs.as_slice();
    let successors = joined(alloc, first.nexts.as_slice(), second.nexts.as_slice())?;
    Ok(Cycle { differ, successors })
}

// Where the input leads the pair, by the next hop: to different outputs, or else into the first
// blocked cube that holds the successors.
pub(crate) fn next_of(
    alloc: Global,
    pair: &Pair,
    blocked: &[Hop],
    input: &[bool],
    left: &[bool],
    right: &[bool],
) -> Result<Option<u32>, NoMemory>
    requires few { length blocked.now ≤ 100000 }
    requires hops { AreHops pair.now blocked.now }
    requires input { length input.now ≡ pair.now.left.inputs }
    requires states { IsPair pair.now left.now right.now }
    requires leaves { Leaves pair.now blocked.now input.now left.now right.now }
    ensures earlier { IfOk result (λ next. ForSome next (λ k. k < length blocked.now)) }
    ensures leads { IfOk result (λ next. Leads pair.now (blocked_aim blocked.now next) input.now left.now right.now) }
{
    let cycle = cycle_of(alloc, pair, input, left, right)?;
    if cycle.differ {
        return Ok(None);
    }
    Ok(first_with(blocked, &cycle.successors))
}

// Whether the outputs differ or a blocked cube holds the successors.
pub(crate) fn leaves(
    alloc: Global,
    pair: &Pair,
    blocked: &[Hop],
    input: &[bool],
    left: &[bool],
    right: &[bool],
) -> Result<bool, NoMemory>
    requires few { length blocked.now ≤ 100000 }
    requires hops { AreHops pair.now blocked.now }
    requires input { length input.now ≡ pair.now.left.inputs }
    requires states { IsPair pair.now left.now right.now }
    ensures { IfOk result (λ yes. yes ≡ true → Leaves pair.now blocked.now input.now left.now right.now) }
{
    let cycle = cycle_of(alloc, pair, input, left, right)?;
    if cycle.differ {
        return Ok(true);
    }
    match first_with(blocked, &cycle.successors) {
        Some(_) => Ok(true),
        None => Ok(false),
    }
}

// The hop of one pair.
fn hop_of(alloc: Global, both: &[bool], input: &[bool], next: Option<u32>) -> Result<Hop, NoMemory>
    ensures cube { IfOk result (λ hop. hop.cube ≡ map known both.now) }
    ensures input { IfOk result (λ hop. hop.input ≡ input.now) }
    ensures next { IfOk result (λ hop. hop.next ≡ next) }
{
    let cube = known_cube(alloc, both)?;
    let input = Bits::from_slice(alloc, input)?;
    Ok(Hop { cube, input, next })
}

// The hop of one pair, made wide.
pub(crate) fn wide_hop(
    alloc: Global,
    pair: &Pair,
    front: &Front,
    input: &[bool],
    left: &[bool],
    right: &[bool],
    next: Option<u32>,
) -> Result<Hop, NoMemory>
    requires front { IsFront pair.now front.now }
    requires input { length input.now ≡ pair.now.left.inputs }
    requires states { IsPair pair.now left.now right.now }
    requires earlier { ForSome next (λ k. k < length front.now.blocked) }
    requires leads { Leads pair.now (blocked_aim front.now.blocked next) input.now left.now right.now }
    ensures good { IfOk result (λ hop. IsBlockedHop pair.now front.now.blocked hop) }
    ensures holds { IfOk result (λ hop. Holds hop.cube left.now right.now) }
{
    are_sides(pair);
    let both = joined(alloc, left, right)?;
    let hop = hop_of(alloc, both.as_slice(), input, next)?;
    let wide = widen_blocked(alloc, pair, front, hop)?;
    Ok(wide)
}
