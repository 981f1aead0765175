// A pair and a filling that land in a blocked cube, read off the free bits that solve the query.
ghost use Rattle.std.specs.Prelude.{◌≡◌, ℕ, ◌+◌, ◌<◌, ◌≤◌, ◌++◌, length, take, drop, IfOk};
ghost use Rattle.std.specs.List.{All, AllZip};
ghost use Rattle.rst_value.specs.Terns.{StandsFor};
ghost use Rattle.rst_gate.specs.Machine.{IsWord, after};
ghost use Rattle.rst_gate.specs.Patterns.{IsPattern, free_bits, filled, IsFilling};
ghost use Rattle.rst_pair.specs.declared.query.Query.TheVariants.{LandFree};
ghost use Rattle.rst_pair.specs.Sides.{AreSides, IsPair, left_machine, right_machine};
ghost use Rattle.rst_pair.specs.Hops.{cubes_of, cube_at};
ghost use Rattle.rst_pair.specs.Queries.{IsQueryCase};
ghost use Rattle.rst_pose.specs.Posing.{IsPosable};
ghost use Rattle.rst_landing.specs.Landings.{journal_of, HasLanded, IsOutside};
ghost use Rattle.rst_landing.specs.Models.{IsFirstHolding, IsReadOf};

use crate::Landing;
use rst_gate::{Bits, Pattern, Sequence, filled, has};
use rst_outside::NoMemory;
use rst_pair::{Front, Hop, Journal, Pair};
use rst_sim::two_run;
use std::alloc::Global;

// Two power-up states, and a filling of the pattern.
#[derive(Drop)]
pub(crate) struct Start {
    pub(crate) a: Bits,
    pub(crate) b: Bits,
    pub(crate) fill: Sequence,
}

// The states and the filling that the free bits of the query are.
fn start_of(alloc: Global, pair: &Pair, seq: &Pattern, bits: &[bool]) -> Result<Start, NoMemory>
    requires { length bits.now ≡ pair.now.left.states + pair.now.right.states + free_bits seq.now }
    ensures { IfOk result (λ s. IsReadOf pair.now seq.now bits.now s) }
{
    let left = pair.left;
    let right = pair.right;
    let first = left.states as usize;
    let both = first + right.states as usize;
    let fill = filled(alloc, seq, &bits[both..])?;
    let a = Bits::from_slice(alloc, &bits[..first])?;
    let b = Bits::from_slice(alloc, &bits[first..both])?;
    Ok(Start { a, b, fill })
}

// The states of both sides behind the filling, the left one first.
fn end_of(alloc: Global, pair: &Pair, start: &Start) -> Result<Bits, NoMemory>
    requires states { IsPair pair.now start.now.a start.now.b }
    requires word { IsWord (left_machine pair.now) start.now.fill }
    ensures { IfOk result (λ both. both ≡ after (left_machine pair.now) start.now.a start.now.fill ++ after (right_machine pair.now) start.now.b start.now.fill) }
{
    let left = pair.left;
    let right = pair.right;
    let first = two_run(alloc, left, &start.a, &start.fill)?;
    let second = two_run(alloc, right, &start.b, &start.fill)?;
    let mut both = Vec::from_slice(alloc, first.last.as_slice())?;
    both.extend_from_slice(second.last.as_slice())?;
    Ok(Bits::from_vec(both))
}

// The number of the first hop whose cube holds the pair, of which there is one.
fn first_holding(hops: &[Hop], both: &Bits) -> u32
    requires wide { All (λ cube. length cube ≡ length both.now) (cubes_of hops.now) }
    requires few { length hops.now ≤ 100000 }
    requires some { (i : ℕ) × (i < length hops.now) × AllZip StandsFor (cube_at hops.now i) both.now }
    ensures { IsFirstHolding hops.now both.now result }
{
    for i in 0..hops.len() {
        if has(&hops[i].cube, both) {
            return i as u32;
        }
    }
    unreachable!()
}

// Both sides are circuits with the same ports.
pub(crate) fn are_sides(pair: &Pair)
    ensures { AreSides pair.now }
{
    let left = pair.left;
    let right = pair.right;
    let _first = left.states;
    let _second = right.states;
}

// The answer that bits which are a case of the query give.
pub(crate) fn outside(
    alloc: Global,
    pair: &Pair,
    front: &Front,
    seq: &Pattern,
    bits: &[bool],
    journal: Journal,
) -> Result<Landing, NoMemory>
    requires posable { IsPosable pair.now front.now (LandFree seq.now) }
    requires case { IsQueryCase pair.now front.now (LandFree seq.now) bits.now }
    ensures lands { IfOk result (λ a. HasLanded pair.now front.now seq.now a) }
    ensures journal { IfOk result (λ a. journal_of a ≡ journal) }
    ensures outside { IfOk result (λ a. IsOutside a) }
{
    are_sides(pair);
    let start = start_of(alloc, pair, seq, bits)?;
    let both = end_of(alloc, pair, &start)?;
    let cube = first_holding(front.blocked.as_slice(), &both);
    Ok(Landing::Outside {
        a: start.a,
        b: start.b,
        fill: start.fill,
        cube,
        journal,
    })
}
