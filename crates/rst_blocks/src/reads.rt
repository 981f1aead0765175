// What expressions and statements read.

ghost use Rattle.std.specs.Prelude.{◌≡◌, ◌++◌, IfOk, OnOk, map};
ghost use Rattle.rst_width.specs.Typed.{plain_typed, plain_all};
ghost use Rattle.rst_net.specs.Statements.{plain_stmt, plain_stmts, plain_arms, plain_case, plain_label};
ghost use Rattle.rst_net.specs.Units.{plain_driver};
ghost use Rattle.rst_blocks.specs.Plain.{plain_default};
ghost use Rattle.rst_blocks.specs.Reads.{whole, reads_of, list_reads, label_reads, reads_in, reads_in_all, reads_in_arms, reads_in_default, unit_reads};

use rst_net::{Driver, Slice, TypedArm, TypedCase, TypedLabel, TypedStmt};
use rst_width::{TypedExpr, TypedNode};
use std::alloc::{AllocFailed, Global};

/// All bits of a signal, as none is wider.
pub fn whole(signal: u32) -> Slice
    ensures { result ≡ whole signal }
{
    Slice {
        signal,
        low: 0,
        width: 64,
    }
}

/// Puts what an expression reads behind other slices, in the order of the text.
#[cycle(reads)]
#[tactic(auto, using(crate::proofs::Lists::expressions))]
pub fn read_by(expr: &TypedExpr, slices: &mut Vec<Slice>) -> Result<(), AllocFailed<Slice>>
    ensures { OnOk result (slices.new.items ≡ slices.old.items ++ reads_of (plain_typed expr.now)) }
{
    match &expr.node {
        TypedNode::Word(_) => Ok(()),
        TypedNode::Signal(signal) => slices.push(whole(*signal)),
        TypedNode::Slice(signal, low, width) => slices.push(Slice {
            signal: *signal,
            low: *low,
            width: *width,
        }),
        TypedNode::Pick(signal, index) => {
            slices.push(whole(*signal))?;
            read_by(index, slices)
        }
        TypedNode::Unary(_, a) | TypedNode::Extend(a) | TypedNode::Sign(a) => read_by(a, slices),
        TypedNode::Binary(_, a, b) => {
            read_by(a, slices)?;
            read_by(b, slices)
        }
        TypedNode::Choose(test, a, b) => {
            read_by(test, slices)?;
            read_by(a, slices)?;
            read_by(b, slices)
        }
        TypedNode::Join(parts) => read_by_all(parts, slices),
        TypedNode::Repeat(_, parts) => read_by_all(parts, slices),
    }
}

#[cycle(reads)]
fn read_by_all(parts: &[TypedExpr], slices: &mut Vec<Slice>) -> Result<(), AllocFailed<Slice>>
    ensures { OnOk result (slices.new.items ≡ slices.old.items ++ list_reads (plain_all parts.now)) }
{
    for part in parts {
        read_by(part, slices)?;
    }
    Ok(())
}

fn read_by_labels(labels: &[TypedLabel], slices: &mut Vec<Slice>) -> Result<(), AllocFailed<Slice>>
    ensures { OnOk result (slices.new.items ≡ slices.old.items ++ label_reads (map plain_label labels.now)) }
{
    for label in labels {
        read_by(&label.value, slices)?;
    }
    Ok(())
}

/// Puts what a statement reads behind other slices, in the order of the text, a default behind the arms of its case.
#[cycle(stmt_reads)]
#[tactic(auto, using(crate::proofs::Lists::rows))]
pub fn read_in(stmt: &TypedStmt, slices: &mut Vec<Slice>) -> Result<(), AllocFailed<Slice>>
    ensures { OnOk result (slices.new.items ≡ slices.old.items ++ reads_in (plain_stmt stmt.now)) }
{
    match stmt {
        TypedStmt::Block(parts) => read_in_all(parts, slices),
        TypedStmt::If(condition, yes, no) => {
            read_by(condition, slices)?;
            read_in(yes, slices)?;
            read_in(no, slices)
        }
        TypedStmt::Case(case) => read_in_case(case, slices),
        TypedStmt::Set(set) => read_by(&set.value, slices),
        TypedStmt::Empty => Ok(()),
    }
}

#[cycle(stmt_reads)]
#[tactic(auto, using(crate::proofs::Lists::cases))]
fn read_in_case(case: &TypedCase, slices: &mut Vec<Slice>) -> Result<(), AllocFailed<Slice>>
    ensures { OnOk result (slices.new.items ≡ slices.old.items ++ reads_in (plain_case case.now)) }
{
    read_by(&case.selector, slices)?;
    read_in_arms(&case.arms, slices)?;
    read_in_default(&case.otherwise, slices)
}

#[cycle(stmt_reads)]
fn read_in_default(
    otherwise: &Option<Box<TypedStmt>>,
    slices: &mut Vec<Slice>,
) -> Result<(), AllocFailed<Slice>>
    ensures { OnOk result (slices.new.items ≡ slices.old.items ++ reads_in_default (plain_default otherwise.now)) }
{
    match otherwise {
        Some(stmt) => read_in(stmt, slices),
        None => Ok(()),
    }
}

#[cycle(stmt_reads)]
fn read_in_all(parts: &[TypedStmt], slices: &mut Vec<Slice>) -> Result<(), AllocFailed<Slice>>
    ensures { OnOk result (slices.new.items ≡ slices.old.items ++ reads_in_all (plain_stmts parts.now)) }
{
    for part in parts {
        read_in(part, slices)?;
    }
    Ok(())
}

#[cycle(stmt_reads)]
fn read_in_arms(arms: &[TypedArm], slices: &mut Vec<Slice>) -> Result<(), AllocFailed<Slice>>
    ensures { OnOk result (slices.new.items ≡ slices.old.items ++ reads_in_arms (plain_arms arms.now)) }
{
    for arm in arms {
        read_by_labels(&arm.labels, slices)?;
        read_in(&arm.body, slices)?;
    }
    Ok(())
}

/// What a unit reads.
pub fn read_by_unit(alloc: Global, unit: &Driver) -> Result<Vec<Slice>, AllocFailed<Slice>>
    ensures { IfOk result (λ slices. slices.items ≡ unit_reads (plain_driver unit.now)) }
{
    let mut slices = Vec::new(alloc);
    match unit {
        Driver::Assign(set) => read_by(&set.value, &mut slices)?,
        Driver::Process(process) => read_in(&process.body, &mut slices)?,
    }
    Ok(slices)
}
