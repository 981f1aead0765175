// What `check` finds of a pattern of a circuit.
ghost use Rattle.std.specs.Prelude.{IfSome};
ghost use Rattle.rst_pair.specs.declared.query.Query.TheVariants.{LandFree};
ghost use Rattle.rst_pose.specs.Posing.{IsPosable};

use crate::asks::{bit_at, first_input, no_hops};
use rst_gate::{Gates, Pattern, free_places};
use rst_outside::NoMemory;
use rst_pair::{Front, Pair, Query};
use rst_pose::is_posable;
use rst_relation::decide_check;
use rst_verdict::Verdict;
use std::alloc::Global;

/// A verdict in numbers: of SignedKnown the cycles; of SignedRelation the cycles, the hops and the free
/// bits of the first cycle; of Refuted the cycles of the sequence and of the word, the first input bit
/// of each, and of each state the first two bits; of Unknown the entries.
#[derive(Clone, Copy, Debug)]
pub(crate) enum Found {
    Known(usize),
    Relation([usize; 3]),
    Refuted([usize; 2], [bool; 2], [[bool; 2]; 2]),
    Unknown(usize),
    /// Another verdict, or the circuit or the pattern isn't within the limits.
    Other,
}

/// Whether three values know all registers behind so many cycles.
pub(crate) fn is_known(found: Found, cycles: usize) -> bool {
    match found {
        Found::Known(c) => c == cycles,
        _ => false,
    }
}

/// Whether a relation of so many hops signs so many cycles, the first with so many free bits.
pub(crate) fn is_relation(found: Found, cycles: usize, hops: usize, free: usize) -> bool {
    match found {
        Found::Relation(counts) => counts[0] == cycles && counts[1] == hops && counts[2] == free,
        _ => false,
    }
}

/// Whether it is undecided behind so many entries.
pub(crate) fn is_unknown(found: Found, entries: usize) -> bool {
    match found {
        Found::Unknown(e) => e == entries,
        _ => false,
    }
}

/// Whether it is refuted behind so many cycles by a word of so many, from states that differ in this
/// register, the first or the second.
pub(crate) fn is_refuted(found: Found, cycles: usize, word: usize, register: usize) -> bool {
    match found {
        Found::Refuted(counts, _, states) => {
            register < 2
                && counts[0] == cycles
                && counts[1] == word
                && states[0][register] != states[1][register]
        }
        _ => false,
    }
}

/// Whether this is the first input bit of the sequence that is refuted.
pub(crate) fn starts_with(found: Found, bit: bool) -> bool {
    match found {
        Found::Refuted(_, inputs, _) => inputs[0] == bit,
        _ => false,
    }
}

/// Whether this is the first input bit of the word that refutes.
pub(crate) fn word_starts_with(found: Found, bit: bool) -> bool {
    match found {
        Found::Refuted(_, inputs, _) => inputs[1] == bit,
        _ => false,
    }
}

fn first_bits(bits: &[bool]) -> [bool; 2] {
    [bit_at(bits, 0), bit_at(bits, 1)]
}

// How many bits of the first cycle are free.
fn free_at_first(seq: &Pattern) -> usize {
    if seq.len() == 0 {
        return 0;
    }
    free_places(seq.get(0))
}

fn found_in(verdict: &Verdict) -> Found {
    match verdict {
        Verdict::SignedKnown { seq } => Found::Known(seq.len()),
        Verdict::SignedRelation {
            seq,
            equal: _,
            blocked,
            split: _,
            land: _,
        } => Found::Relation([seq.len(), blocked.len(), free_at_first(seq)]),
        Verdict::Refuted { seq, a, b, word } => Found::Refuted(
            [seq.len(), word.len()],
            [first_input(seq), first_input(word)],
            [first_bits(a.as_slice()), first_bits(b.as_slice())],
        ),
        Verdict::Unknown { equal: _, journal } => Found::Unknown(journal.len()),
        _ => Found::Other,
    }
}

// The pattern, where the circuit and it are within the limits.
fn within(pair: &Pair, front: &Front, query: Query) -> Option<Pattern>
    ensures { IfSome result (λ seq. IsPosable pair.now front.now (LandFree seq)) }
{
    if !is_posable(pair, front, &query) {
        return None;
    }
    match query {
        Query::LandFree(seq) => Some(seq),
        Query::Land(word) => {
            drop(word);
            None
        }
        Query::Split | Query::Escape | Query::Stuck => None,
    }
}

/// The verdict on the pattern, with so many units of work.
pub(crate) fn check(
    alloc: Global,
    gates: &Gates,
    seq: Pattern,
    budget: u32,
) -> Result<Found, NoMemory> {
    let front = no_hops(alloc, gates.states)?;
    let pair = Pair {
        left: gates,
        right: gates,
    };
    if budget > 100_000 {
        return Ok(Found::Other);
    }
    match within(&pair, &front, Query::LandFree(seq)) {
        Some(seq) => {
            let verdict = decide_check(alloc, gates, seq, budget)?;
            Ok(found_in(&verdict))
        }
        None => Ok(Found::Other),
    }
}
