// Choices between two branches, the second of which is still to come.
ghost use Rattle.std.specs.Prelude.{◌≡◌, ◌+◌, ◌*◌, ◌^◌, ◌≤◌, ◌<◌, ℕ, List, length, OnOk, IfOk};
ghost use Rattle.std.specs.List.{All};
ghost use Rattle.rst_gate.specs.declared.edge.Edge.{Edge};
ghost use Rattle.rst_gate.specs.Circuits.{IsBelow};
ghost use Rattle.rst_gate.specs.GateLists.{next_node};
ghost use Rattle.rst_cycle.specs.Bits.{has_bit, digit};
ghost use Rattle.rst_word_gates.specs.GateAlgebra.{gates_so_far};
ghost use Rattle.rst_lower.specs.WireWords.{widths_of, WiresStand};
ghost use Rattle.rst_statement_terms.specs.Targets.{merged_word};
ghost use Rattle.rst_statement_terms.specs.Weights.{places_below};
ghost use Rattle.rst_statement_gates.specs.Marks.{Ascend};
ghost use Rattle.rst_statement_gates.specs.Choices.{words_at, with_words, chosen_bit, merged_at, held_words, chosen_behind, IsReady, AreReady, marked_bits, waiting_bits};

use crate::marks::Mark;
use rst_gate::{Edge, GateBuilder};
use rst_lower::Wires;
use rst_outside::NoMemory;
use std::alloc::Global;

/// A choice between two branches: its test, the bits that it chooses, and the words of their signals, first those before both
/// branches, and then those behind the first branch.
#[derive(Drop)]
pub struct Waiting {
    pub test: Edge,
    pub marks: Vec<Mark>,
    pub words: Vec<Vec<Edge>>,
}

// The words of the signals with marks.
#[tactic(auto, using(crate::proofs::Marking::inside, crate::proofs::Merging::words_turn))]
fn words_at(alloc: Global, wires: &Wires, marks: &[Mark]) -> Result<Vec<Vec<Edge>>, NoMemory>
    requires { Ascend 0 (length wires.now) marks.now }
    ensures { IfOk result (λ r. held_words r.items ≡ words_at marks.now wires.now) }
{
    let mut words = Vec::new(alloc);
    for k in 0..marks.len() {
        let word = Vec::from_slice(alloc, wires.word(marks[k].signal))?;
        words.push(word)?;
    }
    Ok(words)
}

// Words in place of theirs.
#[tactic(auto, using(crate::proofs::Marking::inside, crate::proofs::Merging::put_turn))]
fn put(
    alloc: Global,
    wires: &mut Wires,
    marks: &[Mark],
    words: &[Vec<Edge>],
) -> Result<(), NoMemory>
    requires ascend { Ascend 0 (length wires.old) marks.now }
    requires one_each { length words.now ≡ length marks.now }
    ensures { OnOk result (wires.new ≡ with_words marks.now (held_words words.now) wires.old) }
{
    for k in 0..marks.len() {
        let word = Vec::from_slice(alloc, words[k].as_slice())?;
        wires.replace(marks[k].signal, word);
    }
    Ok(())
}

/// A choice whose branches are both to come.
pub fn choice(
    alloc: Global,
    wires: &Wires,
    test: Edge,
    marks: Vec<Mark>,
) -> Result<Waiting, NoMemory>
    requires { Ascend 0 (length wires.now) marks.items }
    ensures { IfOk result (λ w. (w.test ≡ test) × (w.marks.items ≡ marks.items) × (held_words w.words.items ≡ words_at marks.items wires.now)) }
{
    let words = words_at(alloc, wires, marks.as_slice())?;
    Ok(Waiting { test, marks, words })
}

/// Behind the first branch: keeps its words, and puts those before it back.
pub fn turn_back(alloc: Global, wires: &mut Wires, waiting: Waiting) -> Result<Waiting, NoMemory>
    requires ascend { Ascend 0 (length wires.old) waiting.marks.items }
    requires one_each { length waiting.words.items ≡ length waiting.marks.items }
    ensures back { OnOk result (wires.new ≡ with_words waiting.marks.items (held_words waiting.words.items) wires.old) }
    ensures kept { IfOk result (λ w. (w.test ≡ waiting.test) × (w.marks.items ≡ waiting.marks.items) × (held_words w.words.items ≡ words_at waiting.marks.items wires.old)) }
{
    let words = words_at(alloc, wires, waiting.marks.as_slice())?;
    put(
        alloc,
        wires,
        waiting.marks.as_slice(),
        waiting.words.as_slice(),
    )?;
    Ok(Waiting {
        test: waiting.test,
        marks: waiting.marks,
        words,
    })
}

// Whether a place is marked.
fn has_bit(mask: u64, place: usize) -> bool
    requires { place < 64 }
    ensures { result ≡ has_bit mask place }
{
    (mask >> place) % 2 == 1
}

// The bit of the first branch or of the second, by the select where the place is marked.
#[tactic(auto, unfolding(crate::specs::Choices::chosen_bit))]
fn choose_bit(
    gates: &mut GateBuilder,
    select: Edge,
    mask: u64,
    place: usize,
    one: Edge,
    zero: Edge,
) -> Result<Edge, NoMemory>
    requires below_64 { place < 64 }
    requires select_stands { IsBelow (next_node gates.old) select }
    requires one_stands { IsBelow (next_node gates.old) one }
    requires zero_stands { IsBelow (next_node gates.old) zero }
    requires room { next_node gates.old + digit (has_bit mask place) ≤ 2 ^ 31 }
    ensures gates { OnOk result (gates.new ≡ (chosen_bit gates_so_far gates.old select (has_bit mask place) one zero).0) }
    ensures edge { IfOk result (λ e. e ≡ (chosen_bit gates_so_far gates.old select (has_bit mask place) one zero).1) }
    ensures stands { IfOk result (λ e. IsBelow (next_node gates.new) e) }
    ensures grows { OnOk result (next_node gates.old ≤ next_node gates.new) }
    ensures few { OnOk result (next_node gates.new ≤ next_node gates.old + digit (has_bit mask place)) }
{
    if has_bit(mask, place) {
        gates.mux(select, one, zero)
    } else {
        Ok(zero)
    }
}

// At each marked place the bit of `one` or that of `zero`, at every other that of `zero`.
#[tactic(auto, using(crate::proofs::Merging::word_turns))]
fn merge_word(
    alloc: Global,
    gates: &mut GateBuilder,
    select: Edge,
    mask: u64,
    one: &[Edge],
    zero: &[Edge],
) -> Result<Vec<Edge>, NoMemory>
    requires one_width { length one.now ≡ length zero.now }
    requires at_most_64 { length one.now ≤ 64 }
    requires select_stands { IsBelow (next_node gates.old) select }
    requires one_stands { All (IsBelow (next_node gates.old)) one.now }
    requires zero_stands { All (IsBelow (next_node gates.old)) zero.now }
    requires room { next_node gates.old + places_below (has_bit mask) 64 ≤ 2 ^ 31 }
    ensures gates { OnOk result (gates.new ≡ (merged_word gates_so_far gates.old select (has_bit mask) 0 one.now zero.now).0) }
    ensures bits { IfOk result (λ r. r.items ≡ (merged_word gates_so_far gates.old select (has_bit mask) 0 one.now zero.now).1) }
    ensures stand { IfOk result (λ r. All (IsBelow (next_node gates.new)) r.items) }
    ensures width { IfOk result (λ r. length r.items ≡ length zero.now) }
    ensures grows { OnOk result (next_node gates.old ≤ next_node gates.new) }
    ensures few { OnOk result (next_node gates.new ≤ next_node gates.old + places_below (has_bit mask) 64) }
{
    let mut bits = Vec::new(alloc);
    for place in 0..one.len() {
        let bit = choose_bit(gates, select, mask, place, one[place], zero[place])?;
        bits.push(bit)?;
    }
    Ok(bits)
}

/// Chooses between both branches, signal by signal, where the wires are those behind the second one.
pub fn merge(
    alloc: Global,
    gates: &mut GateBuilder,
    wires: &mut Wires,
    waiting: &Waiting,
) -> Result<(), NoMemory>
    requires stand { WiresStand (next_node gates.old) wires.old }
    requires at_most_64 { (i : ℕ) → widths_of wires.old i ≤ 64 }
    requires ready { IsReady (next_node gates.old) (length wires.old) (widths_of wires.old) waiting.now }
    requires room { next_node gates.old + marked_bits waiting.now.marks.items ≤ 2 ^ 31 }
    ensures gates { OnOk result (gates.new ≡ (merged_at gates_so_far gates.old waiting.now.test waiting.now.marks.items (held_words waiting.now.words.items) wires.old).0) }
    ensures wires { OnOk result (wires.new ≡ (merged_at gates_so_far gates.old waiting.now.test waiting.now.marks.items (held_words waiting.now.words.items) wires.old).1) }
    ensures stand { OnOk result (WiresStand (next_node gates.new) wires.new) }
    ensures count { OnOk result (length wires.new ≡ length wires.old) }
    ensures widths { OnOk result (widths_of wires.new ≡ widths_of wires.old) }
    ensures grows { OnOk result (next_node gates.old ≤ next_node gates.new) }
    ensures few { OnOk result (next_node gates.new ≤ next_node gates.old + marked_bits waiting.now.marks.items) }
{
    for k in 0..waiting.marks.len() {
        let mark = waiting.marks[k];
        let word = merge_word(
            alloc,
            gates,
            waiting.test,
            mark.mask,
            waiting.words[k].as_slice(),
            wires.word(mark.signal),
        )?;
        wires.replace(mark.signal, word);
    }
    Ok(())
}

/// Chooses at each of these, from the last to the first.
pub fn merge_all(
    alloc: Global,
    gates: &mut GateBuilder,
    wires: &mut Wires,
    waiting: Vec<Waiting>,
) -> Result<(), NoMemory>
    requires stand { WiresStand (next_node gates.old) wires.old }
    requires at_most_64 { (i : ℕ) → widths_of wires.old i ≤ 64 }
    requires ready { AreReady (next_node gates.old) (length wires.old) (widths_of wires.old) waiting.items }
    requires room { next_node gates.old + waiting_bits waiting.items ≤ 2 ^ 31 }
    ensures gates { OnOk result (gates.new ≡ (chosen_behind waiting.items (gates.old, wires.old)).0) }
    ensures wires { OnOk result (wires.new ≡ (chosen_behind waiting.items (gates.old, wires.old)).1) }
    ensures stand { OnOk result (WiresStand (next_node gates.new) wires.new) }
    ensures count { OnOk result (length wires.new ≡ length wires.old) }
    ensures widths { OnOk result (widths_of wires.new ≡ widths_of wires.old) }
    ensures grows { OnOk result (next_node gates.old ≤ next_node gates.new) }
    ensures few { OnOk result (next_node gates.new ≤ next_node gates.old + waiting_bits waiting.items) }
{
    let number = waiting.len();
    for i in 0..number {
        merge(alloc, gates, wires, &waiting[number - 1 - i])?;
    }
    Ok(())
}
