// What refining answers about a pair of designs.
ghost use Rattle.std.specs.Prelude.{◌≡◌, ℕ, true, false, slice_index_or, length, IfOk, IfSome};
ghost use Rattle.rst_pose.specs.Posing.{IsSmall};
ghost use Rattle.rst_pairinv.specs.Refining.{AreMarked};

use rst_gate::{Bits, Gates};
use rst_outside::NoMemory;
use rst_pair::{Front, Pair, Query};
use rst_pairinv::{Refined, refine};
use rst_pose::is_posable;
use rst_sim::closed_equal;
use std::alloc::Global;

/// How many hops and how many entries an answer has.
#[derive(Clone, Copy, Debug)]
pub(crate) enum Told {
    Done(usize, usize),
    Spent(usize, usize),
    /// The designs aren't within the limits, or the numbers of bits don't fit.
    Unasked,
}

/// Whether it is done, with so many hops and entries.
pub(crate) fn is_done(told: Told, hops: usize, entries: usize) -> bool {
    match told {
        Told::Done(h, e) => h == hops && e == entries,
        _ => false,
    }
}

/// Whether it is spent, with so many hops and entries.
pub(crate) fn is_spent(told: Told, hops: usize, entries: usize) -> bool {
    match told {
        Told::Spent(h, e) => h == hops && e == entries,
        _ => false,
    }
}

fn counts_of(answer: &Refined) -> Told {
    match answer {
        Refined::Done {
            blocked,
            log: _,
            journal,
        } => Told::Done(blocked.len(), journal.len()),
        Refined::Spent { blocked, journal } => Told::Spent(blocked.len(), journal.len()),
    }
}

// No marks, of so many registers.
fn no_marks(alloc: Global, count: u32) -> Result<Bits, NoMemory>
    ensures count { IfOk result (λ bits. length bits ≡ count) }
    ensures none { IfOk result (λ bits. (i : ℕ) → slice_index_or bits i false ≡ true → ⊥) }
{
    let mut bits = Bits::new(alloc);
    for _ in 0..count {
        bits.push(false)?;
    }
    Ok(bits)
}

// Whether both sides are within the limits.
fn are_small(pair: &Pair, equal: Bits, alloc: Global) -> Option<Bits>
    ensures same { IfSome result (λ marks. marks ≡ equal) }
    ensures small { IfSome result (λ marks. IsSmall pair.now.left × IsSmall pair.now.right) }
{
    let front = Front {
        equal,
        blocked: Vec::new(alloc),
        freed: Vec::new(alloc),
    };
    if is_posable(pair, &front, &Query::Split) {
        Some(front.equal)
    } else {
        None
    }
}

// What refining answers with these marks.
fn ask(alloc: Global, pair: &Pair, equal: Bits, left: u32) -> Result<Told, NoMemory>
    requires { AreMarked pair.now equal }
{
    if left > 100_000 {
        return Ok(Told::Unasked);
    }
    match &are_small(pair, equal, alloc) {
        Some(equal) => {
            let answer = refine(alloc, pair, equal, left)?;
            Ok(counts_of(&answer))
        }
        None => Ok(Told::Unasked),
    }
}

/// What refining answers about a design beside itself, where these registers are known behind a
/// sequence.
pub(crate) fn one_design(
    alloc: Global,
    gates: &Gates,
    known: &[bool],
    left: u32,
) -> Result<Told, NoMemory> {
    let pair = Pair {
        left: gates,
        right: gates,
    };
    let known = Bits::from_slice(alloc, known)?;
    if known.len() != gates.states as usize {
        return Ok(Told::Unasked);
    }
    let equal = closed_equal(alloc, gates, &known)?;
    ask(alloc, &pair, equal, left)
}

/// What refining answers about two designs.
pub(crate) fn two_designs(
    alloc: Global,
    left_gates: &Gates,
    right_gates: &Gates,
    left: u32,
) -> Result<Told, NoMemory> {
    if left_gates.inputs != right_gates.inputs || left_gates.outs.len() != right_gates.outs.len() {
        return Ok(Told::Unasked);
    }
    let pair = Pair {
        left: left_gates,
        right: right_gates,
    };
    let known = no_marks(alloc, left_gates.states)?;
    let equal = closed_equal(alloc, left_gates, &known)?;
    ask(alloc, &pair, equal, left)
}
