// Two states that may be told apart behind a filling, and whether they are.
ghost use Rattle.std.specs.Prelude.{◌≡◌, true, length, IfOk};
ghost use Rattle.std.specs.List.{AllByRecursion, AllZip};
ghost use Rattle.rst_value.specs.Terns.{StandsFor};
ghost use Rattle.rst_gate.specs.GateMachines.{machine_of};
ghost use Rattle.rst_gate.specs.Machine.{IsState, IsWord, after, outs};
ghost use Rattle.rst_gate.specs.Patterns.{IsFilling};
ghost use Rattle.rst_early.specs.Early.{Refutes};

use rst_gate::{Bits, Cube, Gates, Pattern, Sequence, has};
use rst_outside::NoMemory;
use rst_sim::two_run;
use std::alloc::Global;

/// Two power-up states, a filling of a pattern, and a word that may tell them apart behind it.
#[derive(Drop)]
pub struct Apart {
    pub seq: Sequence,
    pub a: Bits,
    pub b: Bits,
    pub word: Sequence,
}

// Whether the bits are as many as the cube's places, and agree with the known ones.
fn stands(cube: &Cube, bits: &Bits) -> bool
    ensures { result ≡ true → AllZip StandsFor cube.now bits.now }
{
    cube.len() == bits.len() && has(cube, bits)
}

// Whether the word is a filling of the pattern.
fn fills(pattern: &Pattern, word: &Sequence) -> bool
    ensures { result ≡ true → IsFilling pattern.now word.now }
{
    let cubes = pattern.as_slice();
    let inputs = word.as_slice();
    if cubes.len() != inputs.len() {
        return false;
    }
    for i in 0..cubes.len() {
        if !stands(&cubes[i], &inputs[i]) {
            return false;
        }
    }
    true
}

// Whether each input of the word has so many bits.
fn is_word(count: u32, word: &[Bits]) -> bool
    ensures { result ≡ true → AllByRecursion (λ input. length input ≡ count) word.now }
{
    for input in word {
        if input.len() != count as usize {
            return false;
        }
    }
    true
}

// Whether some cycle of two runs, of those that both have, shows different outputs.
fn differ(first: &[Bits], second: &[Bits]) -> bool
    ensures { result ≡ true → first.now ≡ second.now → ⊥ }
{
    for i in 0..first.len() {
        if i >= second.len() {
            return false;
        }
        if first[i].as_slice() != second[i].as_slice() {
            return true;
        }
    }
    false
}

// The state behind the word.
fn behind(alloc: Global, gates: &Gates, state: &Bits, word: &Sequence) -> Result<Bits, NoMemory>
    requires state { IsState (machine_of gates.now) state.now }
    requires word { IsWord (machine_of gates.now) word.now }
    ensures { IfOk result (λ last. last ≡ after (machine_of gates.now) state.now word.now) }
{
    let trace = two_run(alloc, gates, state, word)?;
    Ok(trace.last)
}

// Whether the word tells two states apart by their outputs.
fn are_told(
    alloc: Global,
    gates: &Gates,
    first: &Bits,
    second: &Bits,
    word: &Sequence,
) -> Result<bool, NoMemory>
    requires word { IsWord (machine_of gates.now) word.now }
    ensures { IfOk result (λ yes. yes ≡ true → outs (machine_of gates.now) first.now word.now ≡ outs (machine_of gates.now) second.now word.now → ⊥) }
{
    let count = gates.states as usize;
    if first.len() != count || second.len() != count {
        return Ok(false);
    }
    let left = two_run(alloc, gates, first, word)?;
    let right = two_run(alloc, gates, second, word)?;
    Ok(differ(left.outs.as_slice(), right.outs.as_slice()))
}

// Whether states, filling and word have the places that the gates and the pattern want.
fn fits(gates: &Gates, pattern: &Pattern, it: &Apart) -> bool
    ensures first { result ≡ true → IsState (machine_of gates.now) it.now.a }
    ensures second { result ≡ true → IsState (machine_of gates.now) it.now.b }
    ensures fills { result ≡ true → IsFilling pattern.now it.now.seq }
    ensures seq { result ≡ true → IsWord (machine_of gates.now) it.now.seq }
    ensures word { result ≡ true → IsWord (machine_of gates.now) it.now.word }
{
    let count = gates.states as usize;
    it.a.len() == count
        && it.b.len() == count
        && fills(pattern, &it.seq)
        && is_word(gates.inputs, it.seq.as_slice())
        && is_word(gates.inputs, it.word.as_slice())
}

// Whether the word tells the states apart behind the filling.
pub(crate) fn refutes(
    alloc: Global,
    gates: &Gates,
    pattern: &Pattern,
    it: &Apart,
) -> Result<bool, NoMemory>
    ensures { IfOk result (λ yes. yes ≡ true → Refutes gates.now pattern.now it.now) }
{
    if !fits(gates, pattern, it) {
        return Ok(false);
    }
    let first = behind(alloc, gates, &it.a, &it.seq)?;
    let second = behind(alloc, gates, &it.b, &it.seq)?;
    are_told(alloc, gates, &first, &second, &it.word)
}
