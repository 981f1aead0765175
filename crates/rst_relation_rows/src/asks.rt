// What is decided of a pattern of a circuit.
use rst_gate::{Bits, Cube, Gates, Pattern, Sequence};
use rst_outside::NoMemory;
use rst_pair::{Front, Pair, Query};
use rst_pose::is_posable;
use rst_relation::{Decision, decide};
use rst_value::Tern;
use std::alloc::Global;

/// A decision in numbers: of Signed those of hops and entries; of Refuted those of cycles, cycles of
/// the word and entries, the first input bit of the sequence and of the word, and the first bits of
/// both states; of Unknown that of entries.
#[derive(Clone, Copy, Debug)]
pub(crate) enum Told {
    Signed(usize, usize),
    Refuted([usize; 3], [bool; 2], [bool; 2]),
    Unknown(usize),
    /// The circuit or the pattern isn't within the limits.
    Unasked,
}

pub(crate) fn bit_at(bits: &[bool], i: usize) -> bool {
    i < bits.len() && bits[i]
}

pub(crate) fn first_input(word: &Sequence) -> bool {
    word.len() > 0 && bit_at(word.get(0).as_slice(), 0)
}

fn told_by(answer: &Decision) -> Told {
    match answer {
        Decision::Signed {
            equal: _,
            blocked,
            split: _,
            land: _,
            journal,
        } => Told::Signed(blocked.len(), journal.len()),
        Decision::Refuted {
            seq,
            a,
            b,
            word,
            journal,
        } => Told::Refuted(
            [seq.len(), word.len(), journal.len()],
            [first_input(seq), first_input(word)],
            [bit_at(a.as_slice(), 0), bit_at(b.as_slice(), 0)],
        ),
        Decision::Unknown { equal: _, journal } => Told::Unknown(journal.len()),
    }
}

/// No hop, and no register marked.
pub(crate) fn no_hops(alloc: Global, count: u32) -> Result<Front, NoMemory> {
    let mut equal = Bits::new(alloc);
    for _ in 0..count {
        equal.push(false)?;
    }
    Ok(Front {
        equal,
        blocked: Vec::new(alloc),
        freed: Vec::new(alloc),
    })
}

/// The pattern whose cycles are these places, so many each.
pub(crate) fn pattern(alloc: Global, inputs: usize, places: &[Tern]) -> Result<Pattern, NoMemory> {
    let mut pattern = Pattern::new(alloc);
    let mut cube = Cube::new(alloc);
    for place in places {
        cube.push(*place)?;
        if cube.len() >= inputs {
            pattern.push(cube)?;
            cube = Cube::new(alloc);
        }
    }
    Ok(pattern)
}

/// What is decided of the pattern, with so many units of work.
pub(crate) fn ask(
    alloc: Global,
    gates: &Gates,
    seq: Pattern,
    budget: u32,
) -> Result<Told, NoMemory> {
    let front = no_hops(alloc, gates.states)?;
    let pair = Pair {
        left: gates,
        right: gates,
    };
    let query = Query::LandFree(seq);
    if budget > 100_000 || !is_posable(&pair, &front, &query) {
        return Ok(Told::Unasked);
    }
    match &query {
        Query::LandFree(seq) => {
            let answer = decide(alloc, gates, seq, budget)?;
            Ok(told_by(&answer))
        }
        _ => Ok(Told::Unasked),
    }
}
