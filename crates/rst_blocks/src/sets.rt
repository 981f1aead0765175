// What statements and units set.

ghost use Rattle.std.specs.Prelude.{◌≡◌, ◌++◌, IfOk, OnOk};
ghost use Rattle.rst_net.specs.Statements.{plain_stmt, plain_stmts, plain_arms, plain_case};
ghost use Rattle.rst_net.specs.Units.{plain_driver};
ghost use Rattle.rst_cycle.specs.Drivers.{slice_has, target_has};
ghost use Rattle.rst_blocks.specs.Plain.{plain_default};
ghost use Rattle.rst_blocks.specs.Sets.{targets_in, targets_in_all, targets_in_arms, targets_in_default, unit_targets};

use rst_net::{Driver, Slice, TypedArm, TypedCase, TypedStmt};
use std::alloc::{AllocError, Global};

/// Whether a slice has the bit of a signal at a place.
pub fn slice_has(slice: Slice, signal: u32, place: u8) -> bool
    ensures { result ≡ slice_has signal place slice }
{
    let end = slice.low as u16 + slice.width as u16;
    signal == slice.signal && (!(place < slice.low) && (place as u16) < end)
}

/// Whether one of some slices has it.
pub fn target_has(target: &[Slice], signal: u32, place: u8) -> bool
    ensures { result ≡ target_has target.now signal place }
{
    for slice in target {
        if slice_has(*slice, signal, place) {
            return true;
        }
    }
    false
}

/// Puts the targets of a statement's sets behind other slices, in the order of the text, those of a default behind those of the
/// arms.
#[cycle(sets)]
#[tactic(auto, using(crate::proofs::Lists::rows))]
pub fn set_in(stmt: &TypedStmt, slices: &mut Vec<Slice>) -> Result<(), AllocError>
    ensures { OnOk result (slices.new.items ≡ slices.old.items ++ targets_in (plain_stmt stmt.now)) }
{
    match stmt {
        TypedStmt::Block(parts) => set_in_all(parts, slices),
        TypedStmt::If(_, yes, no) => {
            set_in(yes, slices)?;
            set_in(no, slices)
        }
        TypedStmt::Case(case) => set_in_case(case, slices),
        TypedStmt::Set(set) => slices.extend_from_slice(&set.target),
        TypedStmt::Empty => Ok(()),
    }
}

#[cycle(sets)]
#[tactic(auto, using(crate::proofs::Lists::cases))]
fn set_in_case(case: &TypedCase, slices: &mut Vec<Slice>) -> Result<(), AllocError>
    ensures { OnOk result (slices.new.items ≡ slices.old.items ++ targets_in (plain_case case.now)) }
{
    set_in_arms(&case.arms, slices)?;
    set_in_default(&case.otherwise, slices)
}

#[cycle(sets)]
fn set_in_default(
    otherwise: &Option<Box<TypedStmt>>,
    slices: &mut Vec<Slice>,
) -> Result<(), AllocError>
    ensures { OnOk result (slices.new.items ≡ slices.old.items ++ targets_in_default (plain_default otherwise.now)) }
{
    match otherwise {
        Some(stmt) => set_in(stmt, slices),
        None => Ok(()),
    }
}

#[cycle(sets)]
fn set_in_all(parts: &[TypedStmt], slices: &mut Vec<Slice>) -> Result<(), AllocError>
    ensures { OnOk result (slices.new.items ≡ slices.old.items ++ targets_in_all (plain_stmts parts.now)) }
{
    for part in parts {
        set_in(part, slices)?;
    }
    Ok(())
}

#[cycle(sets)]
fn set_in_arms(arms: &[TypedArm], slices: &mut Vec<Slice>) -> Result<(), AllocError>
    ensures { OnOk result (slices.new.items ≡ slices.old.items ++ targets_in_arms (plain_arms arms.now)) }
{
    for arm in arms {
        set_in(&arm.body, slices)?;
    }
    Ok(())
}

/// What a unit drives.
pub fn driven_by(alloc: Global, unit: &Driver) -> Result<Vec<Slice>, AllocError>
    ensures { IfOk result (λ slices. slices.items ≡ unit_targets (plain_driver unit.now)) }
{
    let mut slices = Vec::new(alloc);
    match unit {
        Driver::Assign(set) => slices.extend_from_slice(&set.target)?,
        Driver::Process(process) => set_in(&process.body, &mut slices)?,
    }
    Ok(slices)
}
