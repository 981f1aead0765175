// The gates of units and of clocked blocks.
ghost use Rattle.std.specs.Prelude.{◌≡◌, ◌+◌, ◌^◌, ◌≤◌, ℕ, true, map, length, OnOk};
ghost use Rattle.rst_gate.specs.GateLists.{next_node};
ghost use Rattle.rst_net.specs.Units.{plain_driver, plain_process};
ghost use Rattle.rst_word_gates.specs.GateAlgebra.{gates_so_far};
ghost use Rattle.rst_lower.specs.WireWords.{widths_of, WiresStand};
ghost use Rattle.rst_statement_terms.specs.Statements.{Current, statement_bits};
ghost use Rattle.rst_statement_terms.specs.Weights.{statement_weight};
ghost use Rattle.rst_statement_values.specs.Fits.{StatementFits};
ghost use Rattle.rst_design_terms.specs.Designs.{unit_statement, units_bits, clocked_bits};
ghost use Rattle.rst_design_terms.specs.Lowerable.{UnitsFit, ClockedFit, units_weight, clocked_weight};

use rst_gate::GateBuilder;
use rst_lower::Wires;
use rst_net::{Driver, Process};
use rst_outside::NoMemory;
use rst_statement_gates::{assign, clocked as clocked_statement, combinational};
use std::alloc::Global;

// The gates of a unit.
fn unit_gates(
    alloc: Global,
    gates: &mut GateBuilder,
    wires: &mut Wires,
    driver: &Driver,
) -> Result<(), NoMemory>
    requires fit { StatementFits (widths_of wires.old) true (unit_statement (plain_driver driver.now)) }
    requires stand { WiresStand (next_node gates.old) wires.old }
    requires at_most_64 { (i : ℕ) → widths_of wires.old i ≤ 64 }
    requires room { next_node gates.old + statement_weight (widths_of wires.old) (length wires.old) (unit_statement (plain_driver driver.now)) ≤ 2 ^ 31 }
    ensures gates { OnOk result (gates.new ≡ (statement_bits gates_so_far Current gates.old wires.old (unit_statement (plain_driver driver.now))).0) }
    ensures wires { OnOk result (wires.new ≡ (statement_bits gates_so_far Current gates.old wires.old (unit_statement (plain_driver driver.now))).1) }
    ensures stand { OnOk result (WiresStand (next_node gates.new) wires.new) }
    ensures widths { OnOk result (widths_of wires.new ≡ widths_of wires.old) }
    ensures count { OnOk result (length wires.new ≡ length wires.old) }
    ensures grows { OnOk result (next_node gates.old ≤ next_node gates.new) }
    ensures few { OnOk result (next_node gates.new ≤ next_node gates.old + statement_weight (widths_of wires.old) (length wires.old) (unit_statement (plain_driver driver.now))) }
{
    match driver {
        Driver::Assign(set) => assign(alloc, gates, wires, set),
        Driver::Process(process) => combinational(alloc, gates, wires, &process.body),
    }
}

/// The gates of units in order, each of which reads what the units before it set.
pub fn settle(
    alloc: Global,
    gates: &mut GateBuilder,
    wires: &mut Wires,
    units: &[Driver],
) -> Result<(), NoMemory>
    requires fit { UnitsFit (widths_of wires.old) (map plain_driver units.now) }
    requires stand { WiresStand (next_node gates.old) wires.old }
    requires at_most_64 { (i : ℕ) → widths_of wires.old i ≤ 64 }
    requires room { next_node gates.old + units_weight (widths_of wires.old) (length wires.old) (map plain_driver units.now) ≤ 2 ^ 31 }
    ensures gates { OnOk result (gates.new ≡ (units_bits gates_so_far gates.old wires.old (map plain_driver units.now)).0) }
    ensures wires { OnOk result (wires.new ≡ (units_bits gates_so_far gates.old wires.old (map plain_driver units.now)).1) }
    ensures stand { OnOk result (WiresStand (next_node gates.new) wires.new) }
    ensures widths { OnOk result (widths_of wires.new ≡ widths_of wires.old) }
    ensures count { OnOk result (length wires.new ≡ length wires.old) }
    ensures grows { OnOk result (next_node gates.old ≤ next_node gates.new) }
    ensures few { OnOk result (next_node gates.new ≤ next_node gates.old + units_weight (widths_of wires.old) (length wires.old) (map plain_driver units.now)) }
{
    for one in units {
        unit_gates(alloc, gates, wires, one)?;
    }
    Ok(())
}

/// The gates of clocked blocks, each of which reads the wires `settled`.
pub fn clocked(
    alloc: Global,
    gates: &mut GateBuilder,
    settled: &Wires,
    wires: &mut Wires,
    processes: &[Process],
) -> Result<(), NoMemory>
    requires fit { ClockedFit (widths_of wires.old) (map plain_process processes.now) }
    requires stand { WiresStand (next_node gates.old) wires.old }
    requires settled_stand { WiresStand (next_node gates.old) settled.now }
    requires settled_widths { widths_of settled.now ≡ widths_of wires.old }
    requires at_most_64 { (i : ℕ) → widths_of wires.old i ≤ 64 }
    requires room { next_node gates.old + clocked_weight (widths_of wires.old) (length wires.old) (map plain_process processes.now) ≤ 2 ^ 31 }
    ensures gates { OnOk result (gates.new ≡ (clocked_bits gates_so_far settled.now gates.old wires.old (map plain_process processes.now)).0) }
    ensures wires { OnOk result (wires.new ≡ (clocked_bits gates_so_far settled.now gates.old wires.old (map plain_process processes.now)).1) }
    ensures stand { OnOk result (WiresStand (next_node gates.new) wires.new) }
    ensures widths { OnOk result (widths_of wires.new ≡ widths_of wires.old) }
    ensures count { OnOk result (length wires.new ≡ length wires.old) }
    ensures grows { OnOk result (next_node gates.old ≤ next_node gates.new) }
    ensures few { OnOk result (next_node gates.new ≤ next_node gates.old + clocked_weight (widths_of wires.old) (length wires.old) (map plain_process processes.now)) }
{
    for process in processes {
        clocked_statement(alloc, gates, settled, wires, &process.body)?;
    }
    Ok(())
}
