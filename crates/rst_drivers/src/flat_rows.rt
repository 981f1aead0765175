// The rows over a flat design: ManyDrivers, Undriven and the limits of bits.

ghost use Rattle.std.specs.Prelude.{◌≡◌, Bool, map, length, None, IfOk, IfErr, OnOk, not, ◌&&◌, nat_eq, replicate, false};
ghost use Rattle.std.specs.List.{flat_map, list_any, enumerate_from};
ghost use Rattle.rst_net.specs.Units.{plain_signal, plain_driver, plain_process, plain_flat};
ghost use Rattle.rst_names.specs.Faults.{Refuses, first};
ghost use Rattle.rst_drivers.specs.FlatRows.{flat_faults, is_driven_role, is_needed};
ghost use Rattle.rst_drivers.specs.CodeRows.{drive_at, has_many, has_open, many_in, undriven_in, faults_in};
ghost use Rattle.rst_drivers.specs.Marks.{Marks, stands};
ghost use Rattle.rst_drivers.specs.Tables.{AreDrives};

use crate::bits::{has_one, has_zero};
use crate::drives::{Drive, drive_at};
use crate::limits::limits_pass;
use crate::reads::{mark_signal, reads_of};
use rst_names::{ElabCode, ElabError, refusal};
use rst_net::{Flat, Role, Signal};
use std::alloc::{AllocError, Global};

fn has_many(signal: &Signal, drive: Drive) -> bool
    ensures { result ≡ has_many drive signal.now.shape.width }
{
    has_one(drive.twice, signal.shape.width) || drive.shared
}

#[tactic(auto, using(rst_names::proofs::RowLemmas::rows))]
fn drivers_pass(alloc: Global, signals: &[Signal], drives: &[Drive]) -> Result<(), ElabError>
    ensures passes { OnOk result
        (first (flat_map (many_in drives.now) (enumerate_from 0 (map plain_signal signals.now))) ≡ None) }
    ensures refused { IfErr result (λ e.
        Refuses e (flat_map (many_in drives.now) (enumerate_from 0 (map plain_signal signals.now)))) }
{
    for (number, signal) in signals.iter().enumerate() {
        if has_many(signal, drive_at(drives, number)) {
            return Err(refusal(alloc, ElabCode::ManyDrivers, signal.name.as_slice(), 0));
        }
    }
    Ok(())
}

fn mark_outputs(outputs: &[u32], marks: &mut [bool])
    ensures { Marks (λ i. list_any (λ o. nat_eq o i) outputs.now) marks.old marks.new }
{
    for output in outputs {
        mark_signal(*output, marks);
    }
}

// The signals that are read or are outputs.
fn needed(alloc: Global, flat: &Flat) -> Result<Vec<bool>, AllocError>
    ensures { IfOk result (λ marks.
        Marks (is_needed (plain_flat flat.now)) (replicate (length flat.now.signals.items) false) marks.items) }
{
    let mut marks = reads_of(alloc, flat.signals.len(), &flat.units, &flat.clocked)?;
    mark_outputs(&flat.outputs, &mut marks);
    Ok(marks)
}

fn is_needed(needed: &[bool], number: usize) -> bool
    ensures { result ≡ stands needed.now number }
{
    match needed.get(number) {
        None => false,
        Some(mark) => *mark,
    }
}

fn is_driven_role(role: Role) -> bool
    ensures { result ≡ is_driven_role role }
{
    match role {
        Role::Clock | Role::Input | Role::Register => true,
        Role::Block | Role::Wire | Role::Idle => false,
    }
}

fn is_open(signal: &Signal, needed: bool, drive: Drive) -> bool
    ensures { result ≡ (not (is_driven_role signal.now.role) && (needed && has_open drive signal.now.shape.width)) }
{
    !is_driven_role(signal.role) && (needed && has_zero(drive.bits, signal.shape.width))
}

#[tactic(auto, using(rst_names::proofs::RowLemmas::rows))]
fn needs_pass(
    alloc: Global,
    signals: &[Signal],
    needed: &[bool],
    drives: &[Drive],
) -> Result<(), ElabError>
    ensures passes { OnOk result
        (first (flat_map (undriven_in needed.now drives.now) (enumerate_from 0 (map plain_signal signals.now))) ≡ None) }
    ensures refused { IfErr result (λ e.
        Refuses e (flat_map (undriven_in needed.now drives.now) (enumerate_from 0 (map plain_signal signals.now)))) }
{
    for (number, signal) in signals.iter().enumerate() {
        if is_open(signal, is_needed(needed, number), drive_at(drives, number)) {
            return Err(refusal(alloc, ElabCode::Undriven, signal.name.as_slice(), 0));
        }
    }
    Ok(())
}

#[tactic(auto, using(rst_names::proofs::RowLemmas::rows))]
fn rows_pass(alloc: Global, flat: &Flat, needed: &[bool], drives: &[Drive]) -> Result<(), ElabError>
    ensures passes { OnOk result (first (faults_in needed.now drives.now (plain_flat flat.now)) ≡ None) }
    ensures refused { IfErr result (λ e. Refuses e (faults_in needed.now drives.now (plain_flat flat.now))) }
{
    drivers_pass(alloc, &flat.signals, drives)?;
    needs_pass(alloc, &flat.signals, needed, drives)?;
    limits_pass(alloc, flat)
}

/// No bit has two drivers, what is read is driven, and the limits of bits hold; else the refusal of the first row that a
/// signal breaks, or `NoMemory`.
#[tactic(auto, using(rst_names::proofs::RowLemmas::rows))]
pub fn flat_passes(alloc: Global, flat: &Flat, drives: &[Drive]) -> Result<(), ElabError>
    ensures passes { AreDrives (map plain_driver flat.now.units.items) (map plain_process flat.now.clocked.items)
        (length flat.now.signals.items) drives.now
        → OnOk result (first (flat_faults (plain_flat flat.now)) ≡ None) }
    ensures refused { AreDrives (map plain_driver flat.now.units.items) (map plain_process flat.now.clocked.items)
        (length flat.now.signals.items) drives.now
        → IfErr result (λ e. Refuses e (flat_faults (plain_flat flat.now))) }
{
    let needed = needed(alloc, flat)?;
    rows_pass(alloc, flat, &needed, drives)
}
