// The rows on blocks: sets of the wrong kind, event lists that leave out what is read, and bits that are held.

ghost use Rattle.std.specs.Prelude.{◌≡◌, ℕ, ◌<◌, ◌+◌, ◌||◌, true, false, IfOk, OnOk, IfSome, IfNone, MatchBool, map};
ghost use Rattle.std.specs.BTreeSet.{btree_set_len};
ghost use Rattle.rst_net.specs.Statements.{plain_stmt, plain_stmts, plain_arms, plain_case};
ghost use Rattle.rst_net.specs.Units.{plain_driver, plain_process};
ghost use Rattle.rst_blocks.specs.Plain.{plain_default, has};
ghost use Rattle.rst_blocks.specs.Sets.{targets_in, front, first_set, first_set_in, first_set_in_arms, first_set_in_default};
ghost use Rattle.rst_blocks.specs.Blocks.{wrong_set, wrong_in_unit, wrong_in_units, wrong_in_clocked, names, lists, first_unknown, unlisted_by, unlisted_in_unit, first_unlisted, is_held, Holds, HoldsNone, HeldBy, HeldInUnit, HeldIs};

use crate::reads::read_in;
use crate::sets::{set_in, target_has};
use crate::surely::{Bit, early, surely};
use rst_net::{Driver, Process, Slice, TypedArm, TypedCase, TypedStmt};
use std::alloc::{AllocError, AllocFailed, Global};
use std::collections::BTreeSet;

/// The first target of the first set that is written with `=`, or of the first that isn't.
#[cycle(kinds)]
#[tactic(auto, using(crate::proofs::Lists::rows))]
fn first_set(stmt: &TypedStmt, blocking: bool) -> Option<u32>
    ensures { result ≡ first_set blocking (plain_stmt stmt.now) }
{
    match stmt {
        TypedStmt::Block(parts) => first_set_in(parts, blocking),
        TypedStmt::If(_, yes, no) => match first_set(yes, blocking) {
            Some(signal) => Some(signal),
            None => first_set(no, blocking),
        },
        TypedStmt::Case(case) => first_set_in_case(case, blocking),
        TypedStmt::Set(set) => {
            if set.blocking == blocking {
                front(&set.target)
            } else {
                None
            }
        }
        TypedStmt::Empty => None,
    }
}

fn front(target: &[Slice]) -> Option<u32>
    ensures { result ≡ front target.now }
{
    match target {
        [slice, ..] => Some(slice.signal),
        [] => None,
    }
}

#[cycle(kinds)]
fn first_set_in(parts: &[TypedStmt], blocking: bool) -> Option<u32>
    ensures { result ≡ first_set_in blocking (plain_stmts parts.now) }
{
    for part in parts {
        if let Some(signal) = first_set(part, blocking) {
            return Some(signal);
        }
    }
    None
}

#[cycle(kinds)]
#[tactic(auto, using(crate::proofs::Lists::cases))]
fn first_set_in_case(case: &TypedCase, blocking: bool) -> Option<u32>
    ensures { result ≡ first_set blocking (plain_case case.now) }
{
    match first_set_in_arms(&case.arms, blocking) {
        Some(signal) => Some(signal),
        None => first_set_in_default(&case.otherwise, blocking),
    }
}

#[cycle(kinds)]
fn first_set_in_default(otherwise: &Option<Box<TypedStmt>>, blocking: bool) -> Option<u32>
    ensures { result ≡ first_set_in_default blocking (plain_default otherwise.now) }
{
    match otherwise {
        Some(stmt) => first_set(stmt, blocking),
        None => None,
    }
}

#[cycle(kinds)]
fn first_set_in_arms(arms: &[TypedArm], blocking: bool) -> Option<u32>
    ensures { result ≡ first_set_in_arms blocking (plain_arms arms.now) }
{
    for arm in arms {
        if let Some(signal) = first_set(&arm.body, blocking) {
            return Some(signal);
        }
    }
    None
}

fn wrong_in_units(units: &[Driver]) -> Option<u32>
    ensures { result ≡ wrong_in_units (map plain_driver units.now) }
{
    for unit in units {
        if let Some(signal) = wrong_in_unit(unit) {
            return Some(signal);
        }
    }
    None
}

fn wrong_in_unit(unit: &Driver) -> Option<u32>
    ensures { result ≡ wrong_in_unit (plain_driver unit.now) }
{
    match unit {
        Driver::Assign(_) => None,
        Driver::Process(process) => first_set(&process.body, false),
    }
}

fn wrong_in_clocked(clocked: &[Process]) -> Option<u32>
    ensures { result ≡ wrong_in_clocked (map plain_process clocked.now) }
{
    for process in clocked {
        if let Some(signal) = first_set(&process.body, true) {
            return Some(signal);
        }
    }
    None
}

/// The first target of the first set that is of the wrong kind: a nonblocking one in a combinational block, or a blocking one in a
/// clocked block.
pub fn wrong_set(units: &[Driver], clocked: &[Process]) -> Option<u32>
    ensures { result ≡ wrong_set (map plain_driver units.now) (map plain_process clocked.now) }
{
    match wrong_in_units(units) {
        Some(signal) => Some(signal),
        None => wrong_in_clocked(clocked),
    }
}

fn put(set: &mut BTreeSet<u32>, signal: u32) -> Result<(), AllocFailed<u32>>
    ensures member { OnOk result (has set.new signal ≡ true) }
    ensures others { OnOk result ((i : ℕ) → (i ≡ signal → ⊥) → has set.new i ≡ has set.old i) }
{
    set.insert(signal)?;
    Ok(())
}

fn is_in(set: &BTreeSet<u32>, signal: u32) -> bool
    ensures { result ≡ has set.now signal }
{
    set.contains(&signal)
}

/// Takes the least signal out of a set.
fn take_least(set: &mut BTreeSet<u32>) -> Option<u32>
    ensures least { IfSome result (λ v. (u : ℕ) → u < v → has set.old u ≡ false) }
    ensures others { IfSome result (λ v. (u : ℕ) → (u ≡ v → ⊥) → has set.new u ≡ has set.old u) }
    ensures fewer { IfSome result (λ _. btree_set_len set.new + 1 ≡ btree_set_len set.old) }
    ensures none { IfNone result ((v : ℕ) → has set.old v ≡ false) }
{
    set.pop_first()
}

/// Puts the signals of some slices into a set.
fn put_signals(set: &mut BTreeSet<u32>, slices: &[Slice]) -> Result<(), AllocFailed<u32>>
    ensures { OnOk result ((i : ℕ) → has set.new i ≡ (has set.old i || names slices.now i)) }
{
    for slice in slices {
        put(set, slice.signal)?;
    }
    Ok(())
}

fn put_listed(set: &mut BTreeSet<u32>, listens: &[u32]) -> Result<(), AllocFailed<u32>>
    ensures { OnOk result ((i : ℕ) → has set.new i ≡ (has set.old i || lists listens.now i)) }
{
    for signal in listens {
        put(set, *signal)?;
    }
    Ok(())
}

fn first_unknown(known: &BTreeSet<u32>, slices: &[Slice]) -> Option<u32>
    ensures { result ≡ first_unknown (has known.now) slices.now }
{
    for slice in slices {
        if !is_in(known, slice.signal) {
            return Some(slice.signal);
        }
    }
    None
}

/// The first signal that a block reads and neither sets nor lists.
fn unlisted_by(alloc: Global, body: &TypedStmt, listens: &[u32]) -> Result<Option<u32>, AllocError>
    ensures { IfOk result (λ answer. answer ≡ unlisted_by (plain_stmt body.now) listens.now) }
{
    let mut targets = Vec::new(alloc);
    set_in(body, &mut targets)?;
    let mut known = BTreeSet::new(alloc);
    put_signals(&mut known, &targets)?;
    put_listed(&mut known, listens)?;
    let mut slices = Vec::new(alloc);
    read_in(body, &mut slices)?;
    Ok(first_unknown(&known, &slices))
}

fn unlisted_in_unit(alloc: Global, unit: &Driver) -> Result<Option<u32>, AllocError>
    ensures { IfOk result (λ answer. answer ≡ unlisted_in_unit (plain_driver unit.now)) }
{
    match unit {
        Driver::Assign(_) => Ok(None),
        Driver::Process(process) => match &process.listens {
            None => Ok(None),
            Some(listens) => unlisted_by(alloc, &process.body, listens),
        },
    }
}

/// The first signal that a block with an event list reads and neither sets nor lists.
pub fn first_unlisted(alloc: Global, units: &[Driver]) -> Result<Option<u32>, AllocError>
    ensures { IfOk result (λ answer. answer ≡ first_unlisted (map plain_driver units.now)) }
{
    for unit in units {
        if let Some(signal) = unlisted_in_unit(alloc, unit)? {
            return Ok(Some(signal));
        }
    }
    Ok(None)
}

/// Whether a block can hold a bit: it sets it somewhere, and can end without a set of it or read it before.
#[tactic(auto, using(crate::proofs::Targets::targets))]
fn holds_bit(body: &TypedStmt, targets: &[Slice], bit: Bit) -> bool
    requires { targets.now ≡ targets_in (plain_stmt body.now) }
    ensures { result ≡ is_held (plain_stmt body.now) bit.signal bit.place }
{
    target_has(targets, bit.signal, bit.place)
        && (!surely(body, bit, false) || early(body, bit, false))
}

/// Whether a block can hold a bit of a signal.
fn holds_signal(body: &TypedStmt, targets: &[Slice], signal: u32) -> bool
    requires { targets.now ≡ targets_in (plain_stmt body.now) }
    ensures { MatchBool result (Holds (plain_stmt body.now) signal) (HoldsNone (plain_stmt body.now) signal) }
{
    for place in 0..64u8 {
        if holds_bit(body, targets, Bit { signal, place }) {
            return true;
        }
    }
    false
}

/// The first signal of which a block can hold a bit.
fn held_by(alloc: Global, body: &TypedStmt) -> Result<Option<u32>, AllocError>
    ensures { IfOk result (HeldBy (plain_stmt body.now)) }
{
    let mut targets = Vec::new(alloc);
    set_in(body, &mut targets)?;
    let mut signals = BTreeSet::new(alloc);
    put_signals(&mut signals, &targets)?;
    while let Some(signal) = take_least(&mut signals) {
        if holds_signal(body, &targets, signal) {
            return Ok(Some(signal));
        }
    }
    Ok(None)
}

fn held_in_unit(alloc: Global, unit: &Driver) -> Result<Option<u32>, AllocError>
    ensures { IfOk result (HeldInUnit (plain_driver unit.now)) }
{
    match unit {
        Driver::Assign(_) => Ok(None),
        Driver::Process(process) => held_by(alloc, &process.body),
    }
}

/// The first signal of which a combinational block can hold a bit.
pub fn first_held(alloc: Global, units: &[Driver]) -> Result<Option<u32>, AllocError>
    ensures { IfOk result (HeldIs (map plain_driver units.now)) }
{
    for unit in units {
        if let Some(signal) = held_in_unit(alloc, unit)? {
            return Ok(Some(signal));
        }
    }
    Ok(None)
}
