// A cheap finder of pairs that split: pairs are guessed and tried by simulation before a question is
// posed. A guess promises nothing; one that is a case is blocked as that of a solution is.

ghost use Rattle.std.specs.Prelude.{◌≡◌, ◌+◌, ◌<◌, ◌≤◌, ◌^◌, true, length, IfOk, OnOk, IfSome, IfNone};
ghost use Rattle.rst_pair.specs.declared.query.Query.TheVariants.{Split};
ghost use Rattle.rst_pose.specs.Posing.{IsSmall};
ghost use Rattle.rst_pairinv.specs.Refining.{AreMarked, Refutes};
ghost use Rattle.rst_pairinv.specs.Turns.{IsRefining, IsFresh, IsCasePart, GoesOn};

use crate::block::{Refining, block};
use crate::hops::{cycle_of, leaves};
use crate::kept::Kept;
use crate::states::{bit_at, joined};
use crate::turn::turn;
use rst_clause::Log;
use rst_gate::Bits;
use rst_outside::NoMemory;
use rst_pair::{Entry, Hop, Journal, Pair, in_relation};
use rst_value::Tern;
use std::alloc::Global;

// How many pairs are drawn at once, and of how many of them a case makes it worth to draw more.
const DRAWS: u32 = 4096;

const WORTH: usize = 64;

// An input and a pair of states, which may split under it.
#[derive(Drop)]
pub(crate) struct Guess {
    pub(crate) input: Bits,
    pub(crate) left: Bits,
    pub(crate) right: Bits,
}

// A linear congruential source of bits.
#[derive(Drop)]
struct Source {
    now: u32,
    ghost small: { now < 2 ^ 31 },
}

impl Source {
    fn new() -> Source {
        Source { now: 1 }
    }

    fn bit(&mut self) -> bool {
        let product = u64::from(self.now) * 1_103_515_245 + 12_345;
        let next = (product % 2_147_483_648) as u32;
        self.now = next;
        next >= 1_073_741_824
    }

    // One of so many places.
    fn place(&mut self, count: u32) -> u32 {
        let _first = self.bit();
        if count == 0 {
            0
        } else {
            self.now / 256 % count
        }
    }

    // Seldom where they are few, and else in half of the draws.
    fn flips(&mut self, few: bool) -> bool {
        let first = self.bit();
        let second = self.bit();
        let third = self.bit();
        first && (!few || second && third)
    }

    fn bits(&mut self, alloc: Global, count: u32, few: bool) -> Result<Bits, NoMemory> {
        let mut bits = Bits::new(alloc);
        for _ in 0..count {
            let first = self.bit();
            let second = self.bit();
            bits.push(first && (!few || second))?;
        }
        Ok(bits)
    }

    // A state with the bits of this one at marked places. Others differ at one place or two, or at
    // some of all.
    fn near(
        &mut self,
        alloc: Global,
        bits: &[bool],
        marks: &[bool],
        count: u32,
    ) -> Result<Bits, NoMemory> {
        let single = self.bit();
        let few = self.bit();
        let first = self.place(count);
        let second = self.place(count);
        let mut near = Bits::new(alloc);
        for i in 0..count {
            let drawn = self.flips(few);
            let chosen = i == first || !few && i == second;
            let flip = if single { chosen } else { drawn };
            let place = i as usize;
            let free = !bit_at(marks, place);
            near.push(bit_at(bits, place) != (flip && free))?;
        }
        Ok(near)
    }

    fn guess(&mut self, alloc: Global, pair: &Pair, marks: &[bool]) -> Result<Guess, NoMemory> {
        let left_gates = pair.left;
        let right_gates = pair.right;
        let sparse = self.bit();
        let input = self.bits(alloc, left_gates.inputs, sparse)?;
        let left = self.bits(alloc, left_gates.states, false)?;
        let right = self.near(alloc, left.as_slice(), marks, right_gates.states)?;
        Ok(Guess { input, left, right })
    }
}

// The known places of blocked cubes: twice the place, and one more where it is 1.
#[derive(Drop)]
struct Known {
    cubes: Vec<Vec<u32>>,
}

impl Known {
    fn learn(&mut self, alloc: Global, cube: &[Tern]) -> Result<(), NoMemory> {
        let mut places = Vec::new(alloc);
        let mut place = 0u32;
        for known in cube {
            match known {
                Tern::Zero => places.push(place)?,
                Tern::One => places.push(place.saturating_add(1))?,
                Tern::Unknown => {}
            }
            place = place.saturating_add(2);
        }
        self.cubes.push(places)?;
        Ok(())
    }

    // Learns the cubes that it doesn't know yet.
    fn learn_all(&mut self, alloc: Global, hops: &[Hop]) -> Result<(), NoMemory> {
        let from = self.cubes.len();
        for i in from..hops.len() {
            self.learn(alloc, hops[i].cube.as_slice())?;
        }
        Ok(())
    }

    // Whether one of the cubes has the bits.
    fn meets(&self, bits: &[bool]) -> bool {
        for places in self.cubes.as_slice() {
            if agree(places.as_slice(), bits) {
                return true;
            }
        }
        false
    }

    // Whether the guess seems to be a case, at a glance.
    fn may_split(&self, alloc: Global, pair: &Pair, guess: &Guess) -> Result<bool, NoMemory> {
        if !fits(pair, guess) {
            return Ok(false);
        }
        let input = guess.input.as_slice();
        let left = guess.left.as_slice();
        let right = guess.right.as_slice();
        let both = joined(alloc, left, right)?;
        if self.meets(both.as_slice()) {
            return Ok(false);
        }
        let cycle = cycle_of(alloc, pair, input, left, right)?;
        Ok(cycle.differ || self.meets(cycle.successors.as_slice()))
    }
}

// Whether the bits have each known place.
fn agree(places: &[u32], bits: &[bool]) -> bool {
    for place in places {
        let at = (*place / 2) as usize;
        if at >= bits.len() || bits[at] != (*place % 2 == 1) {
            return false;
        }
    }
    true
}

// What draws pairs, and what it knows of the blocked cubes.
#[derive(Drop)]
pub(crate) struct Finder {
    source: Source,
    known: Known,
    kept: Box<Kept>,
    draws: u32,
}

impl Finder {
    pub(crate) fn new(alloc: Global, pair: &Pair, marks: &[bool]) -> Result<Finder, NoMemory> {
        let kept = Box::new(alloc, Kept::new(alloc, pair, marks)?)?;
        let source = Source::new();
        let cubes = Vec::new(alloc);
        let known = Known { cubes };
        Ok(Finder {
            source,
            known,
            kept,
            draws: DRAWS,
        })
    }

    // No more draws where they found little.
    fn settle(&mut self, found: usize) {
        if found < WORTH {
            self.draws = 0;
        }
    }

    // A guess that seems to be a case, if this draw is one.
    fn guess(
        &mut self,
        alloc: Global,
        pair: &Pair,
        so_far: &Refining,
    ) -> Result<Option<Guess>, NoMemory> {
        let front = &so_far.front;
        self.known.learn_all(alloc, front.blocked.as_slice())?;
        let guess = self.source.guess(alloc, pair, front.equal.as_slice())?;
        if self.known.may_split(alloc, pair, &guess)? {
            return Ok(Some(guess));
        }
        Ok(None)
    }
}

// The last pair that was blocked, the other way round, with its input.
fn mirrored(alloc: Global, journal: &Journal, count: usize) -> Result<Option<Guess>, NoMemory> {
    let entries = journal.as_slice();
    if entries.is_empty() {
        return Ok(None);
    }
    let Entry::Blocked(hop, both) = &entries[entries.len() - 1] else {
        return Ok(None);
    };
    let bits = both.as_slice();
    if bits.len() < count {
        return Ok(None);
    }
    let input = Bits::from_slice(alloc, hop.input.as_slice())?;
    let left = Bits::from_slice(alloc, &bits[count..])?;
    let right = Bits::from_slice(alloc, &bits[..count])?;
    Ok(Some(Guess { input, left, right }))
}

// Whether the guess has a bit for each input and each register.
fn fits(pair: &Pair, guess: &Guess) -> bool
    ensures input { result ≡ true → length guess.now.input ≡ pair.now.left.inputs }
    ensures left { result ≡ true → length guess.now.left ≡ pair.now.left.states }
    ensures right { result ≡ true → length guess.now.right ≡ pair.now.right.states }
{
    let left_gates = pair.left;
    let right_gates = pair.right;
    guess.input.len() == left_gates.inputs as usize
        && guess.left.len() == left_gates.states as usize
        && guess.right.len() == right_gates.states as usize
}

// Whether the guess is a related pair that its input leads out of the relation.
fn is_case(alloc: Global, pair: &Pair, so_far: &Refining, guess: &Guess) -> Result<bool, NoMemory>
    requires at { IsRefining pair.now so_far.now }
    requires marked { AreMarked pair.now so_far.now.front.equal }
    requires few { length so_far.now.journal < 100000 }
    ensures { IfOk result (λ yes. yes ≡ true → IsCasePart pair.now so_far.now.front guess.now.input guess.now.left guess.now.right) }
{
    if !fits(pair, guess) {
        return Ok(false);
    }
    let front = &so_far.front;
    let input = guess.input.as_slice();
    let left = guess.left.as_slice();
    let right = guess.right.as_slice();
    let both = joined(alloc, left, right)?;
    if !in_relation(front, &both) {
        return Ok(false);
    }
    leaves(alloc, pair, front.blocked.as_slice(), input, left, right)
}

// Blocks the pair of the guess where it is a case. True says that it was.
fn try_guess(
    alloc: Global,
    pair: &Pair,
    so_far: &mut Refining,
    guess: &Guess,
) -> Result<bool, NoMemory>
    requires at { IsRefining pair.now so_far.old }
    requires fresh { IsFresh so_far.old.journal }
    requires marked { AreMarked pair.now so_far.old.front.equal }
    requires few { length so_far.old.journal < 100000 }
    ensures goes { OnOk result (GoesOn pair.now so_far.old so_far.new) }
    ensures most { OnOk result (length so_far.new.journal ≤ length so_far.old.journal + 1) }
{
    if !is_case(alloc, pair, so_far, guess)? {
        return Ok(false);
    }
    let input = guess.input.as_slice();
    let left = guess.left.as_slice();
    block(alloc, pair, so_far, input, left, guess.right.as_slice())?;
    Ok(true)
}

// Tries the last pair that was blocked once more, the other way round, while a unit is left.
fn try_mirrored(
    alloc: Global,
    pair: &Pair,
    so_far: &mut Refining,
    left: u32,
) -> Result<(), NoMemory>
    requires at { IsRefining pair.now so_far.old }
    requires fresh { IsFresh so_far.old.journal }
    requires marked { AreMarked pair.now so_far.old.front.equal }
    requires few { length so_far.old.journal ≤ left }
    requires left { left ≤ 100000 }
    ensures goes { OnOk result (GoesOn pair.now so_far.old so_far.new) }
    ensures few { OnOk result (length so_far.new.journal ≤ left) }
{
    if so_far.journal.len() >= left as usize {
        return Ok(());
    }
    let left_gates = pair.left;
    let found = mirrored(alloc, &so_far.journal, left_gates.states as usize)?;
    if let Some(guess) = found {
        try_guess(alloc, pair, so_far, &guess)?;
    }
    Ok(())
}

// Tries a pair that is drawn, and its mirror where it is a case.
fn draw(
    alloc: Global,
    pair: &Pair,
    so_far: &mut Refining,
    finder: &mut Finder,
    left: u32,
) -> Result<(), NoMemory>
    requires at { IsRefining pair.now so_far.old }
    requires fresh { IsFresh so_far.old.journal }
    requires marked { AreMarked pair.now so_far.old.front.equal }
    requires few { length so_far.old.journal < left }
    requires left { left ≤ 100000 }
    ensures goes { OnOk result (GoesOn pair.now so_far.old so_far.new) }
    ensures few { OnOk result (length so_far.new.journal ≤ left) }
{
    let Some(guess) = finder.guess(alloc, pair, so_far)? else {
        return Ok(());
    };
    if try_guess(alloc, pair, so_far, &guess)? {
        try_mirrored(alloc, pair, so_far, left)?;
    }
    Ok(())
}

// Tries a pair that the kept solver finds, and its mirror where it is a case.
fn ask_kept(
    alloc: Global,
    pair: &Pair,
    so_far: &mut Refining,
    finder: &mut Finder,
    left: u32,
) -> Result<(), NoMemory>
    requires at { IsRefining pair.now so_far.old }
    requires fresh { IsFresh so_far.old.journal }
    requires marked { AreMarked pair.now so_far.old.front.equal }
    requires few { length so_far.old.journal < left }
    requires left { left ≤ 100000 }
    ensures goes { OnOk result (GoesOn pair.now so_far.old so_far.new) }
    ensures few { OnOk result (length so_far.new.journal ≤ left) }
{
    let found = finder
        .kept
        .guess(alloc, so_far.front.blocked.as_slice(), left)?;
    let Some(guess) = found else {
        return Ok(());
    };
    if try_guess(alloc, pair, so_far, &guess)? {
        try_mirrored(alloc, pair, so_far, left)?;
    }
    Ok(())
}

// Tries pairs that are drawn, while a unit is left.
fn find(
    alloc: Global,
    pair: &Pair,
    so_far: &mut Refining,
    finder: &mut Finder,
    left: u32,
) -> Result<(), NoMemory>
    requires at { IsRefining pair.now so_far.old }
    requires fresh { IsFresh so_far.old.journal }
    requires marked { AreMarked pair.now so_far.old.front.equal }
    requires few { length so_far.old.journal ≤ left }
    requires left { left ≤ 100000 }
    ensures goes { OnOk result (GoesOn pair.now so_far.old so_far.new) }
    ensures few { OnOk result (length so_far.new.journal ≤ left) }
{
    'draws: for _ in 0..finder.draws {
        if so_far.journal.len() >= left as usize {
            return Ok(());
        }
        draw(alloc, pair, so_far, finder, left)?;
    }
    Ok(())
}

// Tries guesses, and asks once where none was a case. The log refutes the question.
pub(crate) fn round(
    alloc: Global,
    pair: &Pair,
    so_far: &mut Refining,
    finder: &mut Finder,
    left: u32,
) -> Result<Option<Log>, NoMemory>
    requires small_left { IsSmall pair.now.left }
    requires small_right { IsSmall pair.now.right }
    requires marked { AreMarked pair.now so_far.old.front.equal }
    requires at { IsRefining pair.now so_far.old }
    requires fresh { IsFresh so_far.old.journal }
    requires few { length so_far.old.journal < left }
    requires left { left ≤ 100000 }
    ensures at { OnOk result (IsRefining pair.now so_far.new) }
    ensures equal { OnOk result (so_far.new.front.equal ≡ so_far.old.front.equal) }
    ensures longer { OnOk result (length so_far.old.journal < length so_far.new.journal) }
    ensures few { OnOk result (length so_far.new.journal ≤ left) }
    ensures fresh { IfOk result (λ log. IfNone log (length so_far.new.journal < left → IsFresh so_far.new.journal)) }
    ensures refutes { IfOk result (λ log. IfSome log (λ l. Refutes pair.now so_far.new.front Split l)) }
{
    let before = so_far.journal.len();
    try_mirrored(alloc, pair, so_far, left)?;
    find(alloc, pair, so_far, finder, left)?;
    finder.settle(so_far.journal.len().saturating_sub(before));
    if before < so_far.journal.len() {
        return Ok(None);
    }
    ask_kept(alloc, pair, so_far, finder, left)?;
    if before < so_far.journal.len() {
        return Ok(None);
    }
    let lines = finder
        .kept
        .lines(alloc, pair, so_far.front.blocked.as_slice())?;
    turn(alloc, pair, so_far, left, &lines)
}
