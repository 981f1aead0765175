ghost use Rattle.std.specs.Prelude.{◌≡◌, ◌+◌, ◌≤◌, length, drop, IfOk};
ghost use Rattle.rst_gate.specs.Patterns.{IsFilling, known_pattern, free_of, free_count, free_bits, filled_bit, filled_places, filled};

use crate::lists::free_at;
use crate::{Bits, Cube, Sequence, free_places, known_cube};
use rst_outside::{Items, NoMemory};
use rst_value::Tern;
use std::alloc::Global;

/// A pattern of inputs, cycle by cycle: each cycle is a cube over the inputs, whose X places are
/// free bits.
pub type Pattern = Items<Cube>;

/// A word of inputs as the pattern without free bits.
pub fn known_pattern(alloc: Global, word: &[Bits]) -> Result<Pattern, NoMemory>
    ensures { IfOk result (λ it. it ≡ known_pattern word.now) }
{
    let mut pattern = Pattern::new(alloc);
    for input in word {
        pattern.push(known_cube(alloc, input.as_slice())?)?;
    }
    Ok(pattern)
}

/// The filling of a pattern that has these free bits, cycle by cycle, and in each cycle from the first
/// place on. There is a bit for each free place (`exact`), and the word agrees with each known place
/// (`fills`). It is refused for want of memory alone.
pub fn filled(alloc: Global, pattern: &Pattern, free: &[bool]) -> Result<Sequence, NoMemory>
    requires { length free.now ≡ free_bits pattern.now }
    ensures exact { IfOk result (λ word. word ≡ filled pattern.now free.now) }
    ensures fills { IfOk result (λ word. IsFilling pattern.now word) }
{
    let mut word = Sequence::new(alloc);
    let mut at = 0;
    for cube in pattern.as_slice() {
        word.push(fill(alloc, cube.as_slice(), free, at)?)?;
        at += free_places(cube);
    }
    Ok(word)
}

// The input of a cube that takes the free bits from a place on.
fn fill(alloc: Global, places: &[Tern], free: &[bool], from: usize) -> Result<Bits, NoMemory>
    requires { from + free_count places.now ≤ length free.now }
    ensures { IfOk result (λ bits. bits ≡ filled_places places.now (drop from free.now)) }
{
    let mut bits = Bits::new(alloc);
    let mut at = from;
    for place in places {
        bits.push(bit_at(*place, free, at))?;
        at += free_at(*place);
    }
    Ok(bits)
}

// The bit of a place: its own, or the free one.
fn bit_at(place: Tern, free: &[bool], at: usize) -> bool
    requires { at + free_of place ≤ length free.now }
    ensures { result ≡ filled_bit place (drop at free.now) }
{
    match place {
        Tern::Zero => false,
        Tern::One => true,
        Tern::Unknown => free[at],
    }
}
