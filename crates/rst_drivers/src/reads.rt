// Which signals are read.

ghost use Rattle.std.specs.Prelude.{◌≡◌, ◌||◌, nat_eq, map, IfOk, replicate, false};
ghost use Rattle.std.specs.List.{list_any};
ghost use Rattle.rst_width.specs.Typed.{plain_typed, plain_all};
ghost use Rattle.rst_net.specs.Statements.{plain_stmt, plain_stmts, plain_arms, plain_label};
ghost use Rattle.rst_net.specs.Units.{plain_driver, plain_process};
ghost use Rattle.rst_drivers.specs.Drives.{reads, one_reads, one_label_reads, stmt_reads, stmts_read, arms_read, unit_reads, process_reads, is_read};
ghost use Rattle.rst_drivers.specs.Marks.{Marks};

use rst_net::{Driver, Process, TypedArm, TypedLabel, TypedStmt};
use rst_width::{TypedExpr, TypedNode};
use std::alloc::{AllocError, Global};

// Numbers past the end mark nothing.
pub fn mark_signal(signal: u32, marks: &mut [bool])
    ensures { Marks (nat_eq signal) marks.old marks.new }
{
    let at = signal as usize;
    if at < marks.len() {
        marks[at] = true;
    }
}

#[cycle(marking)]
#[tactic(auto, using(rst_width::proofs::Rows::rows, crate::proofs::MarkLemmas::marking))]
fn mark(expr: &TypedExpr, marks: &mut [bool])
    ensures { Marks (λ i. reads i (plain_typed expr.now)) marks.old marks.new }
{
    match &expr.node {
        TypedNode::Word(_) => {}
        TypedNode::Signal(signal) | TypedNode::Slice(signal, _, _) => mark_signal(*signal, marks),
        TypedNode::Pick(signal, index) => {
            mark_signal(*signal, marks);
            mark(index, marks);
        }
        TypedNode::Unary(_, a) | TypedNode::Extend(a) | TypedNode::Sign(a) => mark(a, marks),
        TypedNode::Binary(_, a, b) => {
            mark(a, marks);
            mark(b, marks);
        }
        TypedNode::Choose(test, a, b) => {
            mark(test, marks);
            mark(a, marks);
            mark(b, marks);
        }
        TypedNode::Join(parts) => mark_all(parts, marks),
        TypedNode::Repeat(_, parts) => mark_all(parts, marks),
    }
}

#[cycle(marking)]
fn mark_all(parts: &[TypedExpr], marks: &mut [bool])
    ensures { Marks (λ i. one_reads i (plain_all parts.now)) marks.old marks.new }
{
    for part in parts {
        mark(part, marks);
    }
}

fn mark_labels(labels: &[TypedLabel], marks: &mut [bool])
    ensures { Marks (λ i. one_label_reads i (map plain_label labels.now)) marks.old marks.new }
{
    for label in labels {
        mark(&label.value, marks);
    }
}

#[cycle(marking_stmts)]
#[tactic(auto, using(crate::proofs::Rows::rows, crate::proofs::MarkLemmas::marking))]
fn mark_stmt(stmt: &TypedStmt, marks: &mut [bool])
    ensures { Marks (λ i. stmt_reads i (plain_stmt stmt.now)) marks.old marks.new }
{
    match stmt {
        TypedStmt::Block(parts) => mark_stmts(parts, marks),
        TypedStmt::If(condition, then, otherwise) => {
            mark(condition, marks);
            mark_stmt(then, marks);
            mark_stmt(otherwise, marks);
        }
        TypedStmt::Case(case) => {
            mark(&case.selector, marks);
            mark_arms(&case.arms, marks);
            if let Some(otherwise) = &case.otherwise {
                mark_stmt(otherwise, marks);
            }
        }
        TypedStmt::Set(set) => mark(&set.value, marks),
        TypedStmt::Empty => {}
    }
}

#[cycle(marking_stmts)]
fn mark_stmts(parts: &[TypedStmt], marks: &mut [bool])
    ensures { Marks (λ i. stmts_read i (plain_stmts parts.now)) marks.old marks.new }
{
    for part in parts {
        mark_stmt(part, marks);
    }
}

#[cycle(marking_stmts)]
fn mark_arms(arms: &[TypedArm], marks: &mut [bool])
    ensures { Marks (λ i. arms_read i (plain_arms arms.now)) marks.old marks.new }
{
    for arm in arms {
        mark_labels(&arm.labels, marks);
        mark_stmt(&arm.body, marks);
    }
}

fn mark_unit(unit: &Driver, marks: &mut [bool])
    ensures { Marks (λ i. unit_reads i (plain_driver unit.now)) marks.old marks.new }
{
    match unit {
        Driver::Assign(set) => mark(&set.value, marks),
        Driver::Process(process) => mark_stmt(&process.body, marks),
    }
}

fn mark_units(units: &[Driver], marks: &mut [bool])
    ensures { Marks (λ i. list_any (unit_reads i) (map plain_driver units.now)) marks.old marks.new }
{
    for unit in units {
        mark_unit(unit, marks);
    }
}

fn mark_clocked(clocked: &[Process], marks: &mut [bool])
    ensures { Marks (λ i. list_any (process_reads i) (map plain_process clocked.now)) marks.old marks.new }
{
    for process in clocked {
        mark_stmt(&process.body, marks);
    }
}

/// For each of so many signals whether it is read.
pub fn reads_of(
    alloc: Global,
    signals: usize,
    units: &[Driver],
    clocked: &[Process],
) -> Result<Vec<bool>, AllocError>
    ensures { IfOk result (λ marks.
        Marks (is_read (map plain_driver units.now) (map plain_process clocked.now)) (replicate signals false) marks.items) }
{
    let mut marks = vec![in alloc; false; signals]?;
    mark_units(units, &mut marks);
    mark_clocked(clocked, &mut marks);
    Ok(marks)
}
