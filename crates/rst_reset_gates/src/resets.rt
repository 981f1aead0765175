// The muxes of resets.
ghost use Rattle.std.specs.Prelude.{◌≡◌, ◌+◌, ◌^◌, ◌≤◌, ◌<◌, ℕ, false, map, length, slice_index_or, OnOk, IfOk};
ghost use Rattle.std.specs.Option.{option_map};
ghost use Rattle.std.specs.List.{All};
ghost use Rattle.rst_gate.specs.Circuits.{IsBelow};
ghost use Rattle.rst_gate.specs.GateLists.{next_node};
ghost use Rattle.rst_gate.specs.SharedGates.{constant_edge};
ghost use Rattle.rst_net.specs.Units.{plain_signal, plain_process};
ghost use Rattle.rst_cycle.specs.Bits.{digit};
ghost use Rattle.rst_cycle.specs.Signals.{width_of};
ghost use Rattle.rst_cycle.specs.Resets.{reset_of};
ghost use Rattle.rst_word_gates.specs.GateAlgebra.{gates_so_far};
ghost use Rattle.rst_lower.specs.WireWords.{word_of, widths_of, WiresStand};
ghost use Rattle.rst_statement_terms.specs.Weights.{places_below};
ghost use Rattle.rst_design_terms.specs.Designs.{reset_bit, reset_bits, reset_word, reset_words};
ghost use Rattle.rst_design_terms.specs.Lowerable.{ClockedFit, clocked_weight};
ghost use Rattle.rst_reset_gates.specs.Tables.{plain_reset, reset_at, IsTable};
ghost use Rattle.rst_reset_gates.specs.Counts.{is_reset, reset_count};

use crate::bits::turned;
use crate::branch::put_process;
use crate::start::blank_wires;
use crate::table::{BitReset, ResetTable};
use rst_gate::{Edge, GateBuilder};
use rst_lower::Wires;
use rst_net::{Process, Role, Signal};
use rst_outside::NoMemory;
use std::alloc::Global;

// The resets of all bits: of each, that of the first block whose first branch sets it.
fn resets_of(
    alloc: Global,
    signals: &[Signal],
    processes: &[Process],
) -> Result<ResetTable, NoMemory>
    requires fit { ClockedFit (width_of (map plain_signal signals.now)) (map plain_process processes.now) }
    requires at_most_64 { (i : ℕ) → width_of (map plain_signal signals.now) i ≤ 64 }
    requires light { 1 + clocked_weight (width_of (map plain_signal signals.now)) (length signals.now) (map plain_process processes.now) ≤ 2 ^ 31 }
    ensures { IfOk result (IsTable (map plain_signal signals.now) (map plain_process processes.now)) }
{
    let mut table = ResetTable::new(alloc, signals)?;
    let blank = blank_wires(alloc, signals)?;
    let mut wires = blank_wires(alloc, signals)?;
    let count = processes.len();
    for k in 0..count {
        let process = &processes[count - 1 - k];
        put_process(alloc, &mut table, &blank, &mut wires, process)?;
    }
    Ok(table)
}

// The lowest bit of a signal; 0 of a number that no signal has.
fn lowest(start: &Wires, signal: u32) -> Edge
    ensures { result ≡ slice_index_or (word_of start.now signal) 0 (constant_edge false) }
{
    if (signal as usize) < start.len() {
        let word = start.word(signal);
        if word.len() > 0 {
            return word[0];
        }
    }
    Edge::constant(false)
}

// A bit behind its reset.
fn reset_bit(
    gates: &mut GateBuilder,
    start: &Wires,
    reset: Option<BitReset>,
    bit: Edge,
) -> Result<Edge, NoMemory>
    requires start_stands { WiresStand (next_node gates.old) start.now }
    requires bit_stands { IsBelow (next_node gates.old) bit }
    requires room { next_node gates.old + digit (is_reset (option_map plain_reset reset)) ≤ 2 ^ 31 }
    ensures gates { OnOk result (gates.new ≡ (reset_bit gates_so_far start.now (option_map plain_reset reset) gates.old bit).0) }
    ensures edge { IfOk result (λ e. e ≡ (reset_bit gates_so_far start.now (option_map plain_reset reset) gates.old bit).1) }
    ensures stands { IfOk result (λ e. IsBelow (next_node gates.new) e) }
    ensures grows { OnOk result (next_node gates.old ≤ next_node gates.new) }
    ensures few { OnOk result (next_node gates.new ≤ next_node gates.old + digit (is_reset (option_map plain_reset reset))) }
{
    match reset {
        None => Ok(bit),
        Some(reset) => {
            let edge = lowest(start, reset.signal);
            let holds = if reset.level { edge } else { edge.turned(true) };
            gates.mux(holds, Edge::constant(reset.value), bit)
        }
    }
}

// The bits of a register behind their resets, the most significant first.
fn reset_bits(
    alloc: Global,
    gates: &mut GateBuilder,
    start: &Wires,
    table: &ResetTable,
    signal: usize,
    bits: &[Edge],
) -> Result<Vec<Edge>, NoMemory>
    requires start_stands { WiresStand (next_node gates.old) start.now }
    requires bits_stand { All (IsBelow (next_node gates.old)) bits.now }
    requires room { next_node gates.old + places_below (λ place. is_reset (reset_at table.now signal place)) (length bits.now) ≤ 2 ^ 31 }
    ensures gates { OnOk result (gates.new ≡ (reset_bits gates_so_far start.now (reset_at table.now signal) gates.old bits.now).0) }
    ensures bits { IfOk result (λ r. r.items ≡ (reset_bits gates_so_far start.now (reset_at table.now signal) gates.old bits.now).1) }
    ensures stand { IfOk result (λ r. All (IsBelow (next_node gates.new)) r.items) }
    ensures grows { OnOk result (next_node gates.old ≤ next_node gates.new) }
    ensures few { OnOk result (next_node gates.new ≤ next_node gates.old + places_below (λ place. is_reset (reset_at table.now signal place)) (length bits.now)) }
{
    let mut done = Vec::new(alloc);
    for k in 0..bits.len() {
        let reset = table.at(signal, bits.len() - 1 - k);
        let bit = reset_bit(gates, start, reset, bits[k])?;
        done.push(bit)?;
    }
    Ok(done)
}

// The word of a signal behind its resets.
fn reset_word(
    alloc: Global,
    gates: &mut GateBuilder,
    start: &Wires,
    table: &ResetTable,
    signal: usize,
    role: Role,
    word: &[Edge],
) -> Result<Vec<Edge>, NoMemory>
    requires start_stands { WiresStand (next_node gates.old) start.now }
    requires word_stands { All (IsBelow (next_node gates.old)) word.now }
    requires width { length word.now ≤ 64 }
    requires room { next_node gates.old + places_below (λ place. is_reset (reset_at table.now signal place)) 64 ≤ 2 ^ 31 }
    ensures gates { OnOk result (gates.new ≡ (reset_word gates_so_far start.now (reset_at table.now signal) role gates.old word.now).0) }
    ensures bits { IfOk result (λ r. r.items ≡ (reset_word gates_so_far start.now (reset_at table.now signal) role gates.old word.now).1) }
    ensures stand { IfOk result (λ r. All (IsBelow (next_node gates.new)) r.items) }
    ensures grows { OnOk result (next_node gates.old ≤ next_node gates.new) }
    ensures few { OnOk result (next_node gates.new ≤ next_node gates.old + places_below (λ place. is_reset (reset_at table.now signal place)) 64) }
{
    match role {
        Role::Register => {
            let bits = turned(alloc, word)?;
            let done = reset_bits(alloc, gates, start, table, signal, &bits)?;
            turned(alloc, &done)
        }
        Role::Clock | Role::Input | Role::Block | Role::Wire | Role::Idle => {
            Ok(Vec::from_slice(alloc, word)?)
        }
    }
}

/// The number of a signal. Memory holds no signal with a greater one.
pub fn number(index: usize) -> Result<u32, NoMemory>
    ensures { IfOk result (λ n. n ≡ index) }
{
    if index <= u32::MAX as usize {
        Ok(index as u32)
    } else {
        Err(NoMemory)
    }
}

// The words of all signals behind the resets of a table.
fn reset_all(
    alloc: Global,
    gates: &mut GateBuilder,
    start: &Wires,
    table: &ResetTable,
    signals: &[Signal],
) -> Result<Wires, NoMemory>
    requires stand { WiresStand (next_node gates.old) start.now }
    requires at_most_64 { (i : ℕ) → widths_of start.now i ≤ 64 }
    requires count { length start.now ≡ length signals.now }
    requires room { next_node gates.old + reset_count (reset_at table.now) (length signals.now) ≤ 2 ^ 31 }
    ensures gates { OnOk result (gates.new ≡ (reset_words gates_so_far start.now (reset_at table.now) gates.old 0 (map plain_signal signals.now) start.now).0) }
    ensures wires { IfOk result (λ wires. wires ≡ (reset_words gates_so_far start.now (reset_at table.now) gates.old 0 (map plain_signal signals.now) start.now).1) }
    ensures stand { IfOk result (λ wires. WiresStand (next_node gates.new) wires) }
    ensures grows { OnOk result (next_node gates.old ≤ next_node gates.new) }
    ensures few { OnOk result (next_node gates.new ≤ next_node gates.old + reset_count (reset_at table.now) (length signals.now)) }
{
    let mut wires = Wires::new(alloc);
    for k in 0..signals.len() {
        let word = start.word(number(k)?);
        let read = reset_word(alloc, gates, start, table, k, signals[k].role, word)?;
        wires.push(read)?;
    }
    Ok(wires)
}

/// The wires that units and clocked blocks read: each bit of a register behind the mux of its reset.
///
/// No signal has more than 64 bits, and the statements of the clocked blocks fit together.
pub fn reset_wires(
    alloc: Global,
    gates: &mut GateBuilder,
    start: &Wires,
    signals: &[Signal],
    processes: &[Process],
) -> Result<Wires, NoMemory>
    requires fit { ClockedFit (widths_of start.now) (map plain_process processes.now) }
    requires stand { WiresStand (next_node gates.old) start.now }
    requires widths { widths_of start.now ≡ width_of (map plain_signal signals.now) }
    requires count { length start.now ≡ length signals.now }
    requires at_most_64 { (i : ℕ) → widths_of start.now i ≤ 64 }
    requires light { 1 + clocked_weight (widths_of start.now) (length start.now) (map plain_process processes.now) ≤ 2 ^ 31 }
    requires room { next_node gates.old + reset_count (reset_of (map plain_process processes.now)) (length signals.now) ≤ 2 ^ 31 }
    ensures gates { OnOk result (gates.new ≡ (reset_words gates_so_far start.now (reset_of (map plain_process processes.now)) gates.old 0 (map plain_signal signals.now) start.now).0) }
    ensures wires { IfOk result (λ wires. wires ≡ (reset_words gates_so_far start.now (reset_of (map plain_process processes.now)) gates.old 0 (map plain_signal signals.now) start.now).1) }
    ensures stand { IfOk result (λ wires. WiresStand (next_node gates.new) wires) }
    ensures widths { IfOk result (λ wires. widths_of wires ≡ widths_of start.now) }
    ensures count { IfOk result (λ wires. length wires ≡ length start.now) }
    ensures grows { OnOk result (next_node gates.old ≤ next_node gates.new) }
    ensures few { OnOk result (next_node gates.new ≤ next_node gates.old + reset_count (reset_of (map plain_process processes.now)) (length signals.now)) }
{
    let table = resets_of(alloc, signals, processes)?;
    reset_all(alloc, gates, start, &table, signals)
}
