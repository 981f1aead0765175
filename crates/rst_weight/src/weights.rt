// The weight of expressions, of statements and of a design. Each sum goes on from one before it, and ends at the greatest number.

ghost use Rattle.std.specs.Prelude.{◌≡◌, ◌+◌, List, length, IfOk, map};
ghost use Rattle.rst_width.specs.Typed.{plain_typed, plain_all};
ghost use Rattle.rst_net.specs.Statements.{plain_stmt, plain_stmts, plain_arms, plain_case, plain_label};
ghost use Rattle.rst_net.specs.Units.{PlainSignal, plain_signal, plain_driver, plain_process};
ghost use Rattle.rst_cycle.specs.Signals.{width_of};
ghost use Rattle.rst_blocks.specs.Plain.{plain_default};
ghost use Rattle.rst_weight.specs.Counts.{bits_set};
ghost use Rattle.rst_weight.specs.Weights.{expr_weight, list_weight, labels_weight, stmt_weight, stmts_weight, arms_weight, default_weight, unit_weight, units_weight, branch_bits, reset_bits, clocked_weight, parts_weight};
ghost use Rattle.rst_weight.specs.Plain.{cut};

use crate::counts::bits_set;
use crate::operators::{binary_weight, is_division, unary_weight};
use rst_net::{Driver, Process, Reset, Signal, TypedArm, TypedCase, TypedLabel, TypedStmt};
use rst_width::{TypedExpr, TypedNode};
use std::alloc::{AllocError, Global};

/// The width of a signal, 0 where there is none.
fn width_of(signals: &[Signal], signal: u32) -> u64
    ensures { result ≡ width_of (map plain_signal signals.now) signal }
{
    match signals.get(signal as usize) {
        Some(signal) => signal.shape.width as u64,
        None => 0,
    }
}

#[cycle(weights)]
#[tactic(auto, using(crate::proofs::Sums::expressions))]
fn expr_weight(signals: &[Signal], expr: &TypedExpr, sum: u64) -> u64
    ensures { result ≡ cut (sum + expr_weight (map plain_signal signals.now) (plain_typed expr.now)) }
{
    match &expr.node {
        TypedNode::Word(_) | TypedNode::Signal(_) | TypedNode::Slice(_, _, _) => sum,
        TypedNode::Pick(signal, index) => {
            expr_weight(
                signals,
                index,
                sum.saturating_add(width_of(signals, *signal)),
            )
        }
        TypedNode::Unary(op, a) => {
            let own = unary_weight(*op, expr.width, a.width);
            expr_weight(signals, a, sum.saturating_add(own))
        }
        TypedNode::Binary(op, a, b) => {
            if is_division(*op) {
                return sum;
            }
            let own = binary_weight(*op, expr.width, a.width, b.width);
            expr_weight(signals, b, expr_weight(signals, a, sum.saturating_add(own)))
        }
        TypedNode::Choose(test, a, b) => {
            let own = expr.width as u64 + test.width as u64;
            let tested = expr_weight(signals, test, sum.saturating_add(own));
            expr_weight(signals, b, expr_weight(signals, a, tested))
        }
        TypedNode::Join(parts) => list_weight(signals, parts, sum),
        TypedNode::Repeat(_, parts) => list_weight(signals, parts, sum),
        TypedNode::Extend(a) | TypedNode::Sign(a) => expr_weight(signals, a, sum),
    }
}

#[cycle(weights)]
fn list_weight(signals: &[Signal], parts: &[TypedExpr], sum: u64) -> u64
    ensures { result ≡ cut (sum + list_weight (map plain_signal signals.now) (plain_all parts.now)) }
{
    let mut sum = sum;
    for part in parts {
        sum = expr_weight(signals, part, sum);
    }
    sum
}

fn labels_weight(signals: &[Signal], labels: &[TypedLabel], width: u8, sum: u64) -> u64
    ensures { result ≡ cut (sum + labels_weight (map plain_signal signals.now) width (map plain_label labels.now)) }
{
    let test = 2 * width as u64 + 1;
    let mut sum = sum;
    for label in labels {
        sum = expr_weight(signals, &label.value, sum.saturating_add(test));
    }
    sum
}

#[cycle(stmt_weights)]
#[tactic(auto, using(crate::proofs::Sums::statements))]
fn stmt_weight(
    alloc: Global,
    signals: &[Signal],
    stmt: &TypedStmt,
    sum: u64,
) -> Result<u64, AllocError>
    ensures { IfOk result (λ all. all ≡ cut (sum + stmt_weight (map plain_signal signals.now) (plain_stmt stmt.now))) }
{
    match stmt {
        TypedStmt::Block(parts) => stmts_weight(alloc, signals, parts, sum),
        TypedStmt::If(condition, yes, no) => {
            let bits = bits_set(alloc, signals.len(), stmt)?;
            let own = (condition.width as u64).saturating_add(bits);
            let tested = expr_weight(signals, condition, sum.saturating_add(own));
            let first = stmt_weight(alloc, signals, yes, tested)?;
            stmt_weight(alloc, signals, no, first)
        }
        TypedStmt::Case(case) => {
            let bits = bits_set(alloc, signals.len(), stmt)?;
            case_weight(alloc, signals, case, bits, sum)
        }
        TypedStmt::Set(set) => Ok(expr_weight(signals, &set.value, sum)),
        TypedStmt::Empty => Ok(sum),
    }
}

#[cycle(stmt_weights)]
fn stmts_weight(
    alloc: Global,
    signals: &[Signal],
    parts: &[TypedStmt],
    sum: u64,
) -> Result<u64, AllocError>
    ensures { IfOk result (λ all. all ≡ cut (sum + stmts_weight (map plain_signal signals.now) (plain_stmts parts.now))) }
{
    let mut sum = sum;
    for part in parts {
        sum = stmt_weight(alloc, signals, part, sum)?;
    }
    Ok(sum)
}

#[cycle(stmt_weights)]
#[tactic(auto, using(crate::proofs::Sums::cases))]
fn case_weight(
    alloc: Global,
    signals: &[Signal],
    case: &TypedCase,
    bits: u64,
    sum: u64,
) -> Result<u64, AllocError>
    requires { bits ≡ cut (bits_set (length signals.now) (plain_case case.now)) }
    ensures { IfOk result (λ all. all ≡ cut (sum + stmt_weight (map plain_signal signals.now) (plain_case case.now))) }
{
    let selected = expr_weight(signals, &case.selector, sum);
    let arms = arms_weight(
        alloc,
        signals,
        &case.arms,
        case.selector.width,
        bits,
        selected,
    )?;
    default_weight(alloc, signals, &case.otherwise, arms)
}

#[cycle(stmt_weights)]
fn arms_weight(
    alloc: Global,
    signals: &[Signal],
    arms: &[TypedArm],
    width: u8,
    bits: u64,
    sum: u64,
) -> Result<u64, AllocError>
    ensures { IfOk result (λ all. all ≡ cut (sum + arms_weight (map plain_signal signals.now) width bits (plain_arms arms.now))) }
{
    let mut sum = sum;
    for arm in arms {
        let tested = labels_weight(signals, &arm.labels, width, sum).saturating_add(bits);
        sum = stmt_weight(alloc, signals, &arm.body, tested)?;
    }
    Ok(sum)
}

#[cycle(stmt_weights)]
fn default_weight(
    alloc: Global,
    signals: &[Signal],
    otherwise: &Option<Box<TypedStmt>>,
    sum: u64,
) -> Result<u64, AllocError>
    ensures { IfOk result (λ all. all ≡ cut (sum + default_weight (map plain_signal signals.now) (plain_default otherwise.now))) }
{
    match otherwise {
        Some(stmt) => stmt_weight(alloc, signals, stmt, sum),
        None => Ok(sum),
    }
}

fn unit_weight(
    alloc: Global,
    signals: &[Signal],
    unit: &Driver,
    sum: u64,
) -> Result<u64, AllocError>
    ensures { IfOk result (λ all. all ≡ cut (sum + unit_weight (map plain_signal signals.now) (plain_driver unit.now))) }
{
    match unit {
        Driver::Assign(set) => Ok(expr_weight(signals, &set.value, sum)),
        Driver::Process(process) => stmt_weight(alloc, signals, &process.body, sum),
    }
}

fn units_weight(
    alloc: Global,
    signals: &[Signal],
    units: &[Driver],
    sum: u64,
) -> Result<u64, AllocError>
    ensures { IfOk result (λ all. all ≡ cut (sum + units_weight (map plain_signal signals.now) (map plain_driver units.now))) }
{
    let mut sum = sum;
    for unit in units {
        sum = unit_weight(alloc, signals, unit, sum)?;
    }
    Ok(sum)
}

fn branch_bits(alloc: Global, count: usize, body: &TypedStmt) -> Result<u64, AllocError>
    ensures { (signals : List PlainSignal) → length signals ≡ count → IfOk result (λ bits. bits ≡ cut (branch_bits signals (plain_stmt body.now))) }
{
    match body {
        TypedStmt::If(_, yes, _) => bits_set(alloc, count, yes),
        TypedStmt::Block(_) | TypedStmt::Case(_) | TypedStmt::Set(_) | TypedStmt::Empty => Ok(0),
    }
}

/// How many bits a clocked block gives a reset.
fn reset_bits(
    alloc: Global,
    count: usize,
    reset: &Option<Reset>,
    body: &TypedStmt,
) -> Result<u64, AllocError>
    ensures { (signals : List PlainSignal) → length signals ≡ count → IfOk result (λ bits. bits ≡ cut (reset_bits signals reset.now (plain_stmt body.now))) }
{
    match reset {
        None => Ok(0),
        Some(_) => branch_bits(alloc, count, body),
    }
}

fn clocked_weight(
    alloc: Global,
    signals: &[Signal],
    clocked: &[Process],
    sum: u64,
) -> Result<u64, AllocError>
    ensures { IfOk result (λ all. all ≡ cut (sum + clocked_weight (map plain_signal signals.now) (map plain_process clocked.now))) }
{
    let mut sum = sum;
    for process in clocked {
        let body = stmt_weight(alloc, signals, &process.body, sum)?;
        let bits = reset_bits(alloc, signals.len(), &process.reset, &process.body)?;
        sum = body.saturating_add(bits);
    }
    Ok(sum)
}

/// The weight of signals, units and clocked blocks, or the greatest number where that is less.
pub fn weight(
    alloc: Global,
    signals: &[Signal],
    units: &[Driver],
    clocked: &[Process],
) -> Result<u64, AllocError>
    ensures { IfOk result (λ all. all ≡ cut (parts_weight (map plain_signal signals.now) (map plain_driver units.now) (map plain_process clocked.now))) }
{
    let sum = units_weight(alloc, signals, units, 0)?;
    clocked_weight(alloc, signals, clocked, sum)
}
