// Shifts and selects by stages, on gates.
ghost use Rattle.std.specs.Prelude.{◌≡◌, ◌+◌, ◌*◌, ◌^◌, ◌≤◌, ◌<◌, length, OnOk, IfOk};
ghost use Rattle.std.specs.List.{All};
ghost use Rattle.rst_gate.specs.Circuits.{IsBelow};
ghost use Rattle.rst_gate.specs.GateLists.{next_node};
ghost use Rattle.rst_terms.specs.Recurrences.{moved, moved_out, shifted, evens, odds, selected};
ghost use Rattle.rst_word_gates.specs.GateAlgebra.{gates_so_far};

use crate::bits::{all_bits, choose, repeat};
use rst_gate::{Edge, GateBuilder};
use rst_outside::NoMemory;
use rst_terms::{Connective, Direction};
use std::alloc::Global;

// The word moved by fewer places than it has.
fn move_word(
    alloc: Global,
    way: Direction,
    fill: Edge,
    places: usize,
    word: &[Edge],
) -> Result<Vec<Edge>, NoMemory>
    requires { places < length word.now }
    ensures { IfOk result (λ r. r.items ≡ moved way fill places word.now) }
{
    match way {
        Direction::Up => {
            let mut bits = repeat(alloc, fill, places)?;
            bits.extend_from_slice(&word[..word.len() - places])?;
            Ok(bits)
        }
        Direction::Down => {
            let mut bits = Vec::from_slice(alloc, &word[places..])?;
            let fills = repeat(alloc, fill, places)?;
            bits.extend_from_slice(fills.as_slice())?;
            Ok(bits)
        }
    }
}

// The fill at each place where one of the high bits is one, else the word.
#[tactic(auto, using(crate::proofs::Turns::replicate_stands, crate::proofs::Turns::edges_later), unfolding(rst_terms::specs::Recurrences::moved_out))]
fn move_out(
    alloc: Global,
    gates: &mut GateBuilder,
    fill: Edge,
    high: &[Edge],
    word: &[Edge],
) -> Result<Vec<Edge>, NoMemory>
    requires fill_stands { IsBelow (next_node gates.old) fill }
    requires high_stand { All (IsBelow (next_node gates.old)) high.now }
    requires word_stands { All (IsBelow (next_node gates.old)) word.now }
    requires room { next_node gates.old + length high.now + length word.now ≤ 2 ^ 31 }
    ensures gates { OnOk result (gates.new ≡ (moved_out gates_so_far gates.old fill high.now word.now).0) }
    ensures bits { IfOk result (λ r. r.items ≡ (moved_out gates_so_far gates.old fill high.now word.now).1) }
    ensures stand { IfOk result (λ r. All (IsBelow (next_node gates.new)) r.items) }
    ensures width { IfOk result (λ r. length r.items ≡ length word.now) }
    ensures grows { OnOk result (next_node gates.old ≤ next_node gates.new) }
    ensures few { OnOk result (next_node gates.new ≤ next_node gates.old + length high.now + length word.now) }
{
    let big = all_bits(gates, Connective::Or, high)?;
    let fills = repeat(alloc, fill, word.len())?;
    choose(alloc, gates, big, fills.as_slice(), word)
}

/// The word moved by an amount, with the fill where bits come free.
pub fn shift(
    alloc: Global,
    gates: &mut GateBuilder,
    way: Direction,
    fill: Edge,
    word: &[Edge],
    amount: &[Edge],
) -> Result<Vec<Edge>, NoMemory>
    requires width { length word.now ≤ 64 }
    requires fill_stands { IsBelow (next_node gates.old) fill }
    requires word_stands { All (IsBelow (next_node gates.old)) word.now }
    requires amount_stands { All (IsBelow (next_node gates.old)) amount.now }
    requires room { next_node gates.old + 7 * length word.now + length amount.now ≤ 2 ^ 31 }
    ensures gates { OnOk result (gates.new ≡ (shifted way gates_so_far gates.old fill 1 amount.now word.now).0) }
    ensures bits { IfOk result (λ r. r.items ≡ (shifted way gates_so_far gates.old fill 1 amount.now word.now).1) }
    ensures stand { IfOk result (λ r. All (IsBelow (next_node gates.new)) r.items) }
    ensures width { IfOk result (λ r. length r.items ≡ length word.now) }
    ensures grows { OnOk result (next_node gates.old ≤ next_node gates.new) }
    ensures few { OnOk result (next_node gates.new ≤ next_node gates.old + 7 * length word.now + length amount.now) }
{
    let mut bits = Vec::from_slice(alloc, word)?;
    let mut places: usize = 1;
    for j in 0..amount.len() {
        if places >= word.len() {
            let (_, high) = amount.split_at(j);
            return move_out(alloc, gates, fill, high, bits.as_slice());
        }
        let other = move_word(alloc, way, fill, places, bits.as_slice())?;
        bits = choose(alloc, gates, amount[j], other.as_slice(), bits.as_slice())?;
        places *= 2;
    }
    let (_, none) = amount.split_at(amount.len());
    move_out(alloc, gates, fill, none, bits.as_slice())
}

// The bits at the even places, and those at the odd ones, of a word of `2 * half` bits.
fn halves(alloc: Global, word: &[Edge], half: usize) -> Result<(Vec<Edge>, Vec<Edge>), NoMemory>
    requires { length word.now ≡ half + half }
    ensures even { IfOk result (λ r. r.0.items ≡ evens word.now) }
    ensures odd { IfOk result (λ r. r.1.items ≡ odds word.now) }
    ensures even_width { IfOk result (λ r. length r.0.items ≡ half) }
    ensures odd_width { IfOk result (λ r. length r.1.items ≡ half) }
{
    let mut even = Vec::new(alloc);
    let mut odd = Vec::new(alloc);
    for i in 0..half {
        even.push(word[i + i])?;
        odd.push(word[i + i + 1])?;
    }
    Ok((even, odd))
}

/// The bit of a word at an index, as a word of one bit; the word has a bit for each value of the
/// index.
pub fn select(
    alloc: Global,
    gates: &mut GateBuilder,
    word: &[Edge],
    index: &[Edge],
) -> Result<Vec<Edge>, NoMemory>
    requires each_value { length word.now ≡ 2 ^ length index.now }
    requires word_stands { All (IsBelow (next_node gates.old)) word.now }
    requires index_stands { All (IsBelow (next_node gates.old)) index.now }
    requires room { next_node gates.old + length word.now ≤ 2 ^ 31 }
    ensures gates { OnOk result (gates.new ≡ (selected gates_so_far gates.old index.now word.now).0) }
    ensures bits { IfOk result (λ r. r.items ≡ (selected gates_so_far gates.old index.now word.now).1) }
    ensures stand { IfOk result (λ r. All (IsBelow (next_node gates.new)) r.items) }
    ensures one { IfOk result (λ r. length r.items ≡ 1) }
    ensures grows { OnOk result (next_node gates.old ≤ next_node gates.new) }
    ensures few { OnOk result (next_node gates.new + 1 ≤ next_node gates.old + length word.now) }
{
    let mut bits = Vec::from_slice(alloc, word)?;
    for j in 0..index.len() {
        let half = bits.len() / 2;
        let (even, odd) = halves(alloc, bits.as_slice(), half)?;
        bits = choose(alloc, gates, index[j], odd.as_slice(), even.as_slice())?;
    }
    Ok(bits)
}
