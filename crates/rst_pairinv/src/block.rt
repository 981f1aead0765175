// Blocking the pairs of a cube, and the notes that are made of it.

ghost use Rattle.std.specs.Prelude.{◌≡◌, ◌+◌, ◌<◌, [], ◌∷◌, ◌++◌, length, IfOk, OnOk};
ghost use Rattle.rst_pair.specs.Sides.{IsPair};
ghost use Rattle.rst_pair.specs.Fronts.{IsRelated};
ghost use Rattle.rst_pairinv.specs.Turns.{IsRefining, IsFresh, Leaves, Notes};

use crate::hops::{next_of, wide_hop};
use crate::states::joined;
use rst_gate::{Bits, Cube};
use rst_outside::NoMemory;
use rst_pair::{Entry, Front, Hop, Journal, Pair};
use std::alloc::Global;

// The hops so far, and the work so far.
#[derive(Drop)]
pub(crate) struct Refining {
    pub(crate) front: Front,
    pub(crate) journal: Journal,
}

fn copy_of(alloc: Global, hop: &Hop) -> Result<Hop, NoMemory>
    ensures { IfOk result (λ copy. copy ≡ hop.now) }
{
    let cube = Cube::from_slice(alloc, hop.cube.as_slice())?;
    let input = Bits::from_slice(alloc, hop.input.as_slice())?;
    let next = hop.next;
    Ok(Hop { cube, input, next })
}

// One more blocked hop.
fn add(front: &mut Front, hop: Hop) -> Result<(), NoMemory>
    ensures { OnOk result (front.new ≡ record { equal = front.old.equal; blocked = front.old.blocked ++ hop ∷ []; freed = front.old.freed }) }
{
    front.blocked.push(hop)?;
    Ok(())
}

// One more blocked hop, and the entry that it was found for the pair.
fn note(alloc: Global, so_far: &mut Refining, hop: Hop, both: Bits) -> Result<(), NoMemory>
    ensures { OnOk result (Notes hop both so_far.old so_far.new) }
{
    let copy = copy_of(alloc, &hop)?;
    add(&mut so_far.front, copy)?;
    so_far.journal.push(Entry::Blocked(hop, both))?;
    Ok(())
}

// Blocks a cube of pairs that has this one, which splits.
pub(crate) fn block(
    alloc: Global,
    pair: &Pair,
    so_far: &mut Refining,
    input: &[bool],
    left: &[bool],
    right: &[bool],
) -> Result<(), NoMemory>
    requires at { IsRefining pair.now so_far.old }
    requires few { length so_far.old.journal < 100000 }
    requires input { length input.now ≡ pair.now.left.inputs }
    requires states { IsPair pair.now left.now right.now }
    requires related { IsRelated so_far.old.front left.now right.now }
    requires leaves { Leaves pair.now so_far.old.front.blocked input.now left.now right.now }
    ensures at { OnOk result (IsRefining pair.now so_far.new) }
    ensures fresh { OnOk result (IsFresh so_far.new.journal) }
    ensures equal { OnOk result (so_far.new.front.equal ≡ so_far.old.front.equal) }
    ensures longer { OnOk result (length so_far.new.journal ≡ length so_far.old.journal + 1) }
{
    let front = &so_far.front;
    let next = next_of(alloc, pair, front.blocked.as_slice(), input, left, right)?;
    let hop = wide_hop(alloc, pair, front, input, left, right, next)?;
    let both = joined(alloc, left, right)?;
    note(alloc, so_far, hop, both)?;
    Ok(())
}
