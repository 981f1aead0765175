// Which bits of the signals are driven, and by what.

ghost use Rattle.std.specs.Prelude.{◌≡◌, ◌+◌, List, [], ◌∷◌, ◌++◌, length, map, replicate, IfOk, OnOk};
ghost use Rattle.rst_net.specs.Statements.{plain_stmt, plain_stmts, plain_arms};
ghost use Rattle.rst_net.specs.Units.{PlainProcess, plain_driver, plain_process};
ghost use Rattle.rst_drivers.specs.Drives.{sets_of, sets_of_all, sets_of_arms, assigned, blocks_of, all_assigned, all_blocks};
ghost use Rattle.rst_drivers.specs.Tables.{AreDrives};
ghost use Rattle.rst_drivers.specs.CodeRows.{drive_at};
ghost use Rattle.rst_drivers.specs.Counts.{with_assign, with_block, nothing, counted, AreCounted};

use crate::bits::bits_of;
use rst_net::{Driver, Process, Slice, TypedArm, TypedStmt};
use rst_outside::NoMemory;
use std::alloc::{AllocError, Global};

/// What drives a signal.
#[derive(Clone, Copy)]
pub struct Drive {
    /// Those of the bits 0 to 63 that have a driver: an assign, a link or a block.
    pub bits: u64,
    /// Those that have two drivers or more.
    pub twice: u64,
    /// Whether two blocks set the signal.
    pub shared: bool,
    /// Whether it stands in the target of an assign or a link.
    pub assigned: bool,
    /// Whether a combinational block sets it.
    pub by_block: bool,
    /// Whether a clocked block sets it.
    pub by_clocked: bool,
    // The number of the last block that sets it, from 1, and the bits that had a driver before that block.
    last: u32,
    others: u64,
}

const NOTHING: Drive = Drive {
    bits: 0,
    twice: 0,
    shared: false,
    assigned: false,
    by_block: false,
    by_clocked: false,
    last: 0,
    others: 0,
};

// What the table has of a signal.
pub fn drive_at(drives: &[Drive], signal: usize) -> Drive
    ensures { result ≡ drive_at drives.now signal }
{
    match drives.get(signal) {
        None => NOTHING,
        Some(drive) => *drive,
    }
}

fn with_assign(before: Drive, slice: Slice) -> Drive
    ensures { result ≡ with_assign before slice }
{
    let bits = bits_of(slice);
    Drive {
        bits: before.bits | bits,
        twice: before.twice | (before.bits & bits),
        assigned: true,
        ..before
    }
}

// The block of this number sets a slice. Each bit counts once a block.
fn with_block(before: Drive, slice: Slice, number: u32, clocked: bool) -> Drive
    ensures { result ≡ with_block number clocked before slice }
{
    let bits = bits_of(slice);
    let again = before.last == number;
    let others = if again { before.others } else { before.bits };
    Drive {
        bits: before.bits | bits,
        twice: before.twice | (others & bits),
        shared: before.shared || (!again && (before.by_block || before.by_clocked)),
        assigned: before.assigned,
        by_block: before.by_block || !clocked,
        by_clocked: before.by_clocked || clocked,
        last: number,
        others,
    }
}

// Slices of other signals than these count nowhere.
fn count_assign(target: &[Slice], drives: &mut [Drive])
    ensures { drives.new ≡ counted with_assign drives.old target.now }
{
    for slice in target {
        let at = slice.signal as usize;
        if at < drives.len() {
            drives[at] = with_assign(drives[at], *slice);
        }
    }
}

fn count_set(target: &[Slice], number: u32, clocked: bool, drives: &mut [Drive])
    ensures { drives.new ≡ counted (with_block number clocked) drives.old target.now }
{
    for slice in target {
        let at = slice.signal as usize;
        if at < drives.len() {
            drives[at] = with_block(drives[at], *slice, number, clocked);
        }
    }
}

#[cycle(counting)]
#[tactic(auto, using(crate::proofs::Rows::rows))]
fn count_stmt(stmt: &TypedStmt, number: u32, clocked: bool, drives: &mut [Drive])
    ensures { drives.new ≡ counted (with_block number clocked) drives.old (sets_of (plain_stmt stmt.now)) }
{
    match stmt {
        TypedStmt::Block(parts) => count_stmts(parts, number, clocked, drives),
        TypedStmt::If(_, then, otherwise) => {
            count_stmt(then, number, clocked, drives);
            count_stmt(otherwise, number, clocked, drives);
        }
        TypedStmt::Case(case) => {
            count_arms(&case.arms, number, clocked, drives);
            if let Some(otherwise) = &case.otherwise {
                count_stmt(otherwise, number, clocked, drives);
            }
        }
        TypedStmt::Set(set) => count_set(&set.target, number, clocked, drives),
        TypedStmt::Empty => {}
    }
}

#[cycle(counting)]
fn count_stmts(parts: &[TypedStmt], number: u32, clocked: bool, drives: &mut [Drive])
    ensures { drives.new ≡ counted (with_block number clocked) drives.old (sets_of_all (plain_stmts parts.now)) }
{
    for part in parts {
        count_stmt(part, number, clocked, drives);
    }
}

#[cycle(counting)]
fn count_arms(arms: &[TypedArm], number: u32, clocked: bool, drives: &mut [Drive])
    ensures { drives.new ≡ counted (with_block number clocked) drives.old (sets_of_arms (plain_arms arms.now)) }
{
    for arm in arms {
        count_stmt(&arm.body, number, clocked, drives);
    }
}

// The number of one more block.
fn one_more(number: u32) -> Result<u32, NoMemory>
    ensures { IfOk result (λ next. next ≡ number + 1) }
{
    number.checked_add(1).ok_or(NoMemory)
}

// One more unit, behind so many blocks, and how many blocks there are then.
fn count_unit(unit: &Driver, number: u32, drives: &mut [Drive]) -> Result<u32, NoMemory>
    ensures { IfOk result (λ next. (places : List Slice) (bs : List PlainProcess)
        → AreCounted places bs [] number drives.old
        → AreCounted (places ++ assigned (plain_driver unit.now)) (bs ++ blocks_of (plain_driver unit.now)) []
        next drives.new) }
{
    match unit {
        Driver::Assign(set) => {
            count_assign(&set.target, drives);
            Ok(number)
        }
        Driver::Process(process) => {
            let next = one_more(number)?;
            count_stmt(&process.body, next, false, drives);
            Ok(next)
        }
    }
}

fn count_units(units: &[Driver], drives: &mut [Drive]) -> Result<u32, NoMemory>
    requires { AreCounted [] [] [] 0 drives.old }
    ensures { IfOk result (λ number. AreCounted (all_assigned (map plain_driver units.now))
        (all_blocks (map plain_driver units.now)) [] number drives.new) }
{
    let mut number = 0;
    for unit in units {
        number = count_unit(unit, number, drives)?;
    }
    Ok(number)
}

fn count_clocked(process: &Process, number: u32, drives: &mut [Drive]) -> Result<u32, NoMemory>
    ensures { IfOk result (λ next. (places : List Slice) (bs cs : List PlainProcess)
        → AreCounted places bs cs number drives.old
        → AreCounted places bs (cs ++ plain_process process.now ∷ []) next drives.new) }
{
    let next = one_more(number)?;
    count_stmt(&process.body, next, true, drives);
    Ok(next)
}

fn count_all_clocked(
    clocked: &[Process],
    blocks: u32,
    drives: &mut [Drive],
) -> Result<u32, NoMemory>
    ensures { IfOk result (λ number. (places : List Slice) (bs : List PlainProcess)
        → AreCounted places bs [] blocks drives.old
        → AreCounted places bs (map plain_process clocked.now) number drives.new) }
{
    let mut number = blocks;
    for process in clocked {
        number = count_clocked(process, number, drives)?;
    }
    Ok(number)
}

// Of a table of which nothing is counted yet.
fn count_drives(units: &[Driver], clocked: &[Process], drives: &mut [Drive]) -> Result<(), NoMemory>
    requires { AreCounted [] [] [] 0 drives.old }
    ensures { OnOk result
        (AreDrives (map plain_driver units.now) (map plain_process clocked.now) (length drives.old) drives.new) }
{
    let blocks = count_units(units, drives)?;
    count_all_clocked(clocked, blocks, drives)?;
    Ok(())
}

fn no_drives(alloc: Global, signals: usize) -> Result<Vec<Drive>, AllocError>
    ensures { IfOk result (λ ds. ds.items ≡ replicate signals nothing) }
{
    vec![in alloc; NOTHING; signals]
}

/// What drives each of so many signals. Slices of other signals count nowhere, and no bit above 63 counts.
///
/// `NoMemory` comes where memory runs out, and for 2^32 blocks or more.
pub fn drives_of(
    alloc: Global,
    signals: usize,
    units: &[Driver],
    clocked: &[Process],
) -> Result<Vec<Drive>, NoMemory>
    ensures { IfOk result (λ ds.
        AreDrives (map plain_driver units.now) (map plain_process clocked.now) signals ds.items) }
{
    let mut drives = no_drives(alloc, signals)?;
    count_drives(units, clocked, &mut drives)?;
    Ok(drives)
}
