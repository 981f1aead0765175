// What the first branch of a reset form forces.
ghost use Rattle.std.specs.Prelude.{◌≡◌, ◌+◌, ◌^◌, ◌≤◌, ◌<◌, ℕ, false, map, length, OnOk};
ghost use Rattle.std.specs.List.{AllByRecursion};
ghost use Rattle.rst_net.specs.Statements.{plain_stmt};
ghost use Rattle.rst_net.specs.Units.{plain_process};
ghost use Rattle.rst_cycle.specs.Bits.{has_bit};
ghost use Rattle.rst_cycle.specs.Drivers.{slice_has, target_has, sets};
ghost use Rattle.rst_cycle.specs.Resets.{forced};
ghost use Rattle.rst_lower.specs.WireWords.{word_of, widths_of};
ghost use Rattle.rst_statement_terms.specs.Weights.{statement_weight};
ghost use Rattle.rst_statement_values.specs.Fits.{StatementFits, SliceInside};
ghost use Rattle.rst_reset_gates.specs.NodeWords.{IsBlank};
ghost use Rattle.rst_reset_gates.specs.Tables.{row_of, value_at, Gives, Precedes, IsForced};

use crate::table::{BitReset, ResetTable};
use rst_blocks::set_in;
use rst_gate::GateBuilder;
use rst_lower::Wires;
use rst_net::{Process, Reset, Slice, TypedStmt};
use rst_outside::NoMemory;
use rst_statement_gates::clocked;
use std::alloc::Global;

// What a branch leaves wires with that are all 0. It reads nothing else, so that every edge is a constant one.
fn force(
    alloc: Global,
    blank: &Wires,
    wires: &mut Wires,
    branch: &TypedStmt,
) -> Result<(), NoMemory>
    requires blank { IsBlank blank.now }
    requires same { wires.old ≡ blank.now }
    requires fit { StatementFits (widths_of blank.now) false (plain_stmt branch.now) }
    requires at_most_64 { (i : ℕ) → widths_of blank.now i ≤ 64 }
    requires room { 1 + statement_weight (widths_of blank.now) (length blank.now) (plain_stmt branch.now) ≤ 2 ^ 31 }
    ensures { OnOk result (IsForced (plain_stmt branch.now) blank.now wires.new) }
{
    let mut gates = GateBuilder::new(alloc, 0, 0)?;
    clocked(alloc, &mut gates, blank, wires, branch)
}

// The bits of a slice have this reset, with the values of some wires.
fn put_slice(table: &mut ResetTable, reset: Reset, wires: &Wires, slice: Slice)
    requires inside { SliceInside (widths_of wires.now) slice }
    requires at_most_64 { (i : ℕ) → widths_of wires.now i ≤ 64 }
    ensures { Gives reset (λ i place. slice_has i place slice) (value_at wires.now) table.old table.new }
{
    let word = wires.word(slice.signal);
    for place in slice.low..slice.low + slice.width {
        let bit = BitReset {
            signal: reset.signal,
            level: reset.level,
            value: word[place as usize].inverted,
        };
        table.put(slice.signal, place, bit);
    }
}

// Those of some slices.
fn put_slices(table: &mut ResetTable, reset: Reset, wires: &Wires, slices: &[Slice])
    requires inside { AllByRecursion (SliceInside (widths_of wires.now)) slices.now }
    requires at_most_64 { (i : ℕ) → widths_of wires.now i ≤ 64 }
    ensures { Gives reset (target_has slices.now) (value_at wires.now) table.old table.new }
{
    for slice in slices {
        put_slice(table, reset, wires, *slice);
    }
}

// The signals of these slices have the words of other wires again.
fn clear(alloc: Global, blank: &Wires, wires: &mut Wires, slices: &[Slice]) -> Result<(), NoMemory>
    requires inside { AllByRecursion (SliceInside (widths_of blank.now)) slices.now }
    requires count { length wires.old ≡ length blank.now }
    requires kept { (i : ℕ) → ((place : ℕ) → target_has slices.now i place ≡ false) → word_of wires.old i ≡ word_of blank.now i }
    ensures { OnOk result (wires.new ≡ blank.now) }
{
    for slice in slices {
        let word = Vec::from_slice(alloc, blank.word(slice.signal))?;
        wires.replace(slice.signal, word);
    }
    Ok(())
}

// The bits that a branch sets have this reset.
fn put_branch(
    alloc: Global,
    table: &mut ResetTable,
    blank: &Wires,
    wires: &mut Wires,
    reset: Reset,
    branch: &TypedStmt,
) -> Result<(), NoMemory>
    requires blank { IsBlank blank.now }
    requires same { wires.old ≡ blank.now }
    requires rows { (i : ℕ) → length (row_of table.old i) ≤ widths_of blank.now i }
    requires fit { StatementFits (widths_of blank.now) false (plain_stmt branch.now) }
    requires at_most_64 { (i : ℕ) → widths_of blank.now i ≤ 64 }
    requires room { 1 + statement_weight (widths_of blank.now) (length blank.now) (plain_stmt branch.now) ≤ 2 ^ 31 }
    ensures same { OnOk result (wires.new ≡ blank.now) }
    ensures gives { OnOk result (Gives reset (sets (plain_stmt branch.now)) (λ i place. has_bit (forced (plain_stmt branch.now) i) place) table.old table.new) }
{
    let mut slices = Vec::new(alloc);
    set_in(branch, &mut slices)?;
    force(alloc, blank, wires, branch)?;
    put_slices(table, reset, wires, &slices);
    clear(alloc, blank, wires, &slices)
}

/// The bits that the first branch of a reset form sets have its reset, in place of what they had. The wires are blank before and after it.
pub fn put_process(
    alloc: Global,
    table: &mut ResetTable,
    blank: &Wires,
    wires: &mut Wires,
    process: &Process,
) -> Result<(), NoMemory>
    requires blank { IsBlank blank.now }
    requires same { wires.old ≡ blank.now }
    requires rows { (i : ℕ) → length (row_of table.old i) ≤ widths_of blank.now i }
    requires fit { StatementFits (widths_of blank.now) false (plain_process process.now).body }
    requires at_most_64 { (i : ℕ) → widths_of blank.now i ≤ 64 }
    requires room { 1 + statement_weight (widths_of blank.now) (length blank.now) (plain_process process.now).body ≤ 2 ^ 31 }
    ensures same { OnOk result (wires.new ≡ blank.now) }
    ensures precedes { OnOk result (Precedes (plain_process process.now) table.old table.new) }
{
    match process.reset {
        Some(reset) => match &*process.body {
            TypedStmt::If(_, branch, _) => put_branch(alloc, table, blank, wires, reset, branch),
            _ => Ok(()),
        },
        None => Ok(()),
    }
}
