// The search for what refutes a pattern, by simulation alone.
ghost use Rattle.std.specs.Prelude.{IfOk, IfSome};
ghost use Rattle.rst_early.specs.Early.{Refutes};

use crate::Apart;
use crate::apart::refutes;
use crate::drawing::Source;
use rst_gate::{Bits, Gates, Pattern, Sequence};
use rst_outside::NoMemory;
use std::alloc::Global;

// How long the word of a try is: seldom long.
fn cycles_of(turn: u32) -> u32 {
    if turn % 1024 == 1023 {
        1024
    } else if turn % 256 == 255 {
        256
    } else if turn % 64 == 63 {
        64
    } else if turn % 16 == 15 {
        16
    } else if turn % 4 == 3 {
        4
    } else {
        1
    }
}

// As many inputs of a word as stand before a place.
fn front_of(alloc: Global, word: &[Bits], count: usize) -> Result<Sequence, NoMemory> {
    let mut front = Sequence::new(alloc);
    for input in word {
        if front.len() < count {
            front.push(Bits::from_slice(alloc, input.as_slice())?)?;
        }
    }
    Ok(front)
}

// The same with so many inputs of its word.
fn cut(alloc: Global, it: &Apart, count: usize) -> Result<Apart, NoMemory> {
    Ok(Apart {
        seq: front_of(alloc, it.seq.as_slice(), it.seq.len())?,
        a: Bits::from_slice(alloc, it.a.as_slice())?,
        b: Bits::from_slice(alloc, it.b.as_slice())?,
        word: front_of(alloc, it.word.as_slice(), count)?,
    })
}

// With as few inputs of its word as tell the states apart.
fn shortest(alloc: Global, gates: &Gates, pattern: &Pattern, it: Apart) -> Result<Apart, NoMemory>
    requires { Refutes gates.now pattern.now it }
    ensures { IfOk result (Refutes gates.now pattern.now) }
{
    let mut best = it;
    let mut least = 0;
    for _ in 0..11 {
        let most = best.word.len();
        if least < most {
            let half = least + (most - least) / 2;
            let short = cut(alloc, &best, half)?;
            if refutes(alloc, gates, pattern, &short)? {
                best = short;
            } else {
                least = half + 1;
            }
        }
    }
    Ok(best)
}

/// Tries whether pairs of power-up states that are drawn are told apart behind fillings of a pattern,
/// by words that are drawn, of at most 1,024 inputs.
///
/// Some names two power-up states, a filling of the pattern, and a word that tells the states apart
/// by their outputs behind it: the pattern doesn't sign. None says nothing. It is refused for want of
/// memory alone.
pub fn early(
    alloc: Global,
    gates: &Gates,
    pattern: &Pattern,
    tries: u32,
) -> Result<Option<Apart>, NoMemory>
    ensures { IfOk result (λ found. IfSome found (λ it. Refutes gates.now pattern.now it)) }
{
    let mut source = Source::new();
    for turn in 0..tries {
        let cycles = cycles_of(turn);
        let it = source.apart(alloc, gates, pattern, cycles)?;
        if refutes(alloc, gates, pattern, &it)? {
            return Ok(Some(shortest(alloc, gates, pattern, it)?));
        }
    }
    Ok(None)
}
