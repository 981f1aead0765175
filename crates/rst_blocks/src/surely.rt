// Which bits a statement surely sets, and which it can read before they are set.

ghost use Rattle.std.specs.Prelude.{◌≡◌, map};
ghost use Rattle.rst_width.specs.Typed.{plain_typed, plain_all};
ghost use Rattle.rst_net.specs.Statements.{plain_stmt, plain_stmts, plain_arms, plain_case, plain_label};
ghost use Rattle.rst_cycle.specs.Drivers.{target_has};
ghost use Rattle.rst_blocks.specs.Plain.{plain_default};
ghost use Rattle.rst_blocks.specs.Reads.{reads, list_reads, label_reads};
ghost use Rattle.rst_blocks.specs.Surely.{surely, surely_all, surely_arms, surely_end, early, early_all, early_arms, early_default};

use crate::reads::whole;
use crate::sets::{slice_has, target_has};
use rst_net::{Slice, TypedArm, TypedCase, TypedLabel, TypedStmt};
use rst_width::{TypedExpr, TypedNode};

/// The bit of a signal at a place, counted from the lowest.
#[derive(Clone, Copy)]
pub struct Bit {
    pub signal: u32,
    pub place: u8,
}

/// Whether a bit is surely set behind a statement, by whether it surely is before it.
#[cycle(surely)]
#[tactic(auto, using(crate::proofs::Lists::rows))]
pub fn surely(stmt: &TypedStmt, bit: Bit, before: bool) -> bool
    ensures { result ≡ surely bit.signal bit.place (plain_stmt stmt.now) before }
{
    match stmt {
        TypedStmt::Block(parts) => surely_all(parts, bit, before),
        TypedStmt::If(_, yes, no) => surely(yes, bit, before) && surely(no, bit, before),
        TypedStmt::Case(case) => surely_case(case, bit, before),
        TypedStmt::Set(set) => before || target_has(&set.target, bit.signal, bit.place),
        TypedStmt::Empty => before,
    }
}

#[cycle(surely)]
fn surely_all(parts: &[TypedStmt], bit: Bit, before: bool) -> bool
    ensures { result ≡ surely_all bit.signal bit.place (plain_stmts parts.now) before }
{
    let mut surely_set = before;
    for part in parts {
        surely_set = surely(part, bit, surely_set);
    }
    surely_set
}

#[cycle(surely)]
#[tactic(auto, using(crate::proofs::Lists::cases))]
fn surely_case(case: &TypedCase, bit: Bit, before: bool) -> bool
    ensures { result ≡ surely bit.signal bit.place (plain_case case.now) before }
{
    surely_end(&case.otherwise, case.full, bit, before) && surely_arms(&case.arms, bit, before)
}

#[cycle(surely)]
fn surely_end(otherwise: &Option<Box<TypedStmt>>, full: bool, bit: Bit, before: bool) -> bool
    ensures { result ≡ surely_end bit.signal bit.place (plain_default otherwise.now) full before }
{
    match otherwise {
        Some(stmt) => surely(stmt, bit, before),
        None => full || before,
    }
}

#[cycle(surely)]
fn surely_arms(arms: &[TypedArm], bit: Bit, before: bool) -> bool
    ensures { result ≡ surely_arms bit.signal bit.place (plain_arms arms.now) before }
{
    for arm in arms {
        if !surely(&arm.body, bit, before) {
            return false;
        }
    }
    true
}

/// Whether an expression reads a bit.
#[cycle(reads_bit)]
#[tactic(auto, using(crate::proofs::Lists::bit_reads))]
pub fn reads(expr: &TypedExpr, bit: Bit) -> bool
    ensures { result ≡ reads (plain_typed expr.now) bit.signal bit.place }
{
    match &expr.node {
        TypedNode::Word(_) => false,
        TypedNode::Signal(signal) => slice_has(whole(*signal), bit.signal, bit.place),
        TypedNode::Slice(signal, low, width) => {
            let slice = Slice {
                signal: *signal,
                low: *low,
                width: *width,
            };
            slice_has(slice, bit.signal, bit.place)
        }
        TypedNode::Pick(signal, index) => {
            slice_has(whole(*signal), bit.signal, bit.place) || reads(index, bit)
        }
        TypedNode::Unary(_, a) | TypedNode::Extend(a) | TypedNode::Sign(a) => reads(a, bit),
        TypedNode::Binary(_, a, b) => reads(a, bit) || reads(b, bit),
        TypedNode::Choose(test, a, b) => reads(test, bit) || (reads(a, bit) || reads(b, bit)),
        TypedNode::Join(parts) => any_reads(parts, bit),
        TypedNode::Repeat(_, parts) => any_reads(parts, bit),
    }
}

#[cycle(reads_bit)]
#[tactic(auto, using(crate::proofs::Lists::bit_reads))]
fn any_reads(parts: &[TypedExpr], bit: Bit) -> bool
    ensures { result ≡ target_has (list_reads (plain_all parts.now)) bit.signal bit.place }
{
    for part in parts {
        if reads(part, bit) {
            return true;
        }
    }
    false
}

#[tactic(auto, using(crate::proofs::Lists::bit_reads))]
fn labels_read(labels: &[TypedLabel], bit: Bit) -> bool
    ensures { result ≡ target_has (label_reads (map plain_label labels.now)) bit.signal bit.place }
{
    for label in labels {
        if reads(&label.value, bit) {
            return true;
        }
    }
    false
}

/// Whether a statement can read a bit before it is set, by whether it surely is set before the statement.
#[cycle(early)]
#[tactic(auto, using(crate::proofs::Lists::rows))]
pub fn early(stmt: &TypedStmt, bit: Bit, before: bool) -> bool
    ensures { result ≡ early bit.signal bit.place (plain_stmt stmt.now) before }
{
    match stmt {
        TypedStmt::Block(parts) => early_all(parts, bit, before),
        TypedStmt::If(condition, yes, no) => {
            (!before && reads(condition, bit))
                || (early(yes, bit, before) || early(no, bit, before))
        }
        TypedStmt::Case(case) => early_case(case, bit, before),
        TypedStmt::Set(set) => !before && reads(&set.value, bit),
        TypedStmt::Empty => false,
    }
}

#[cycle(early)]
fn early_all(parts: &[TypedStmt], bit: Bit, before: bool) -> bool
    ensures { result ≡ early_all bit.signal bit.place (plain_stmts parts.now) before }
{
    let mut surely_set = before;
    for part in parts {
        if early(part, bit, surely_set) {
            return true;
        }
        surely_set = surely(part, bit, surely_set);
    }
    false
}

#[cycle(early)]
#[tactic(auto, using(crate::proofs::Lists::cases))]
fn early_case(case: &TypedCase, bit: Bit, before: bool) -> bool
    ensures { result ≡ early bit.signal bit.place (plain_case case.now) before }
{
    (!before && reads(&case.selector, bit))
        || (early_arms(&case.arms, bit, before) || early_default(&case.otherwise, bit, before))
}

#[cycle(early)]
fn early_default(otherwise: &Option<Box<TypedStmt>>, bit: Bit, before: bool) -> bool
    ensures { result ≡ early_default bit.signal bit.place (plain_default otherwise.now) before }
{
    match otherwise {
        Some(stmt) => early(stmt, bit, before),
        None => false,
    }
}

#[cycle(early)]
fn early_arms(arms: &[TypedArm], bit: Bit, before: bool) -> bool
    ensures { result ≡ early_arms bit.signal bit.place (plain_arms arms.now) before }
{
    for arm in arms {
        if !before && labels_read(&arm.labels, bit) {
            return true;
        }
        if early(&arm.body, bit, before) {
            return true;
        }
    }
    false
}
