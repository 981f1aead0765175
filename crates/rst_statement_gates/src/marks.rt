// The bits that statements set, signal by signal.
ghost use Rattle.std.specs.Prelude.{◌≡◌, ◌≤◌, ◌++◌, ◌∷◌, [], ◌<◌, length, OnOk, IfOk};
ghost use Rattle.rst_net.specs.Statements.{plain_stmt, plain_stmts, plain_arms, plain_case};
ghost use Rattle.rst_statement_gates.specs.Marks.{IsPlace, ones, slice_mask, Ascend, with_mark, mark_slice, mark_target, mark_statement, mark_all, mark_arms, mark_default, arm_marks, chain_marks};
ghost use Rattle.rst_statement_gates.specs.Plain.{plain_default};

use rst_net::{Slice, TypedArm, TypedCase, TypedStmt};
use rst_outside::NoMemory;
use std::alloc::Global;
use std::marker::Model;

/// Bits of a signal: the places at which `mask` has a one.
#[derive(Clone, Copy)]
pub struct Mark {
    pub signal: u32,
    pub mask: u64,
}

// So many ones, at most 64.
fn ones(width: u8) -> u64
    ensures { result ≡ ones width }
{
    if width >= 64 {
        u64::MAX
    } else {
        (1u64 << width) - 1
    }
}

// The bits of a slice below 64.
fn slice_mask(slice: Slice) -> u64
    ensures { result ≡ slice_mask slice }
{
    if slice.low >= 64 {
        0
    } else {
        ones(slice.width) << slice.low
    }
}

// Where a signal's mark stands or would stand.
#[tactic(auto, using(crate::proofs::Marking::places))]
fn place(marks: &[Mark], count: usize, signal: u32) -> usize
    requires { Ascend 0 count marks.now }
    ensures { IsPlace marks.now signal result }
{
    let _count = count;
    let mut low = 0;
    let mut high = marks.len();
    while low < high {
        let middle = low + (high - low) / 2;
        if marks[middle].signal < signal {
            low = middle + 1;
        } else {
            high = middle;
        }
    }
    low
}

// Marks bits of a signal.
#[tactic(auto, using(crate::proofs::Marking::entries))]
fn add(marks: &mut Vec<Mark>, count: usize, signal: u32, mask: u64) -> Result<(), NoMemory>
    requires { Ascend 0 count marks.old.items }
    ensures { OnOk result (marks.new.items ≡ with_mark marks.old.items signal mask) }
{
    let at = place(marks.as_slice(), count, signal);
    if at < marks.len() && marks[at].signal == signal {
        let mark = marks[at];
        marks[at] = Mark {
            signal,
            mask: mark.mask | mask,
        };
        return Ok(());
    }
    marks.insert(at, Mark { signal, mask })?;
    Ok(())
}

// Marks the bits of a slice of one of the first `count` signals.
#[tactic(auto, using(crate::proofs::Marking::slice_ascends))]
fn mark_slice(slice: Slice, count: usize, marks: &mut Vec<Mark>) -> Result<(), NoMemory>
    requires { Ascend 0 count marks.old.items }
    ensures marked { OnOk result (marks.new.items ≡ mark_slice count marks.old.items slice) }
    ensures ascend { OnOk result (Ascend 0 count marks.new.items) }
{
    if (slice.signal as usize) < count {
        add(marks, count, slice.signal, slice_mask(slice))
    } else {
        Ok(())
    }
}

// Marks the bits of slices of the first `count` signals.
fn mark_target(target: &[Slice], count: usize, marks: &mut Vec<Mark>) -> Result<(), NoMemory>
    requires { Ascend 0 count marks.old.items }
    ensures marked { OnOk result (marks.new.items ≡ mark_target count target.now marks.old.items) }
    ensures ascend { OnOk result (Ascend 0 count marks.new.items) }
{
    for slice in target {
        mark_slice(*slice, count, marks)?;
    }
    Ok(())
}

// Marks the bits of the first `count` signals that a statement sets.
#[cycle(marking)]
#[tactic(auto, using(crate::proofs::Rows::rows))]
fn mark_statement(stmt: &TypedStmt, count: usize, marks: &mut Vec<Mark>) -> Result<(), NoMemory>
    requires { Ascend 0 count marks.old.items }
    ensures marked { OnOk result (marks.new.items ≡ mark_statement count (plain_stmt stmt.now) marks.old.items) }
    ensures ascend { OnOk result (Ascend 0 count marks.new.items) }
{
    match stmt {
        TypedStmt::Block(parts) => mark_all(parts, count, marks),
        TypedStmt::If(_, first, second) => {
            mark_statement(first, count, marks)?;
            mark_statement(second, count, marks)
        }
        TypedStmt::Case(case) => mark_case(case, count, marks),
        TypedStmt::Set(set) => mark_target(&set.target, count, marks),
        TypedStmt::Empty => Ok(()),
    }
}

#[cycle(marking)]
#[tactic(auto, using(crate::proofs::Rows::cases))]
fn mark_case(case: &TypedCase, count: usize, marks: &mut Vec<Mark>) -> Result<(), NoMemory>
    requires { Ascend 0 count marks.old.items }
    ensures marked { OnOk result (marks.new.items ≡ mark_statement count (plain_case case.now) marks.old.items) }
    ensures ascend { OnOk result (Ascend 0 count marks.new.items) }
{
    mark_arms(&case.arms, count, marks)?;
    mark_default(&case.otherwise, count, marks)
}

#[cycle(marking)]
fn mark_default(
    otherwise: &Option<Box<TypedStmt>>,
    count: usize,
    marks: &mut Vec<Mark>,
) -> Result<(), NoMemory>
    requires { Ascend 0 count marks.old.items }
    ensures marked { OnOk result (marks.new.items ≡ mark_default count (plain_default otherwise.now) marks.old.items) }
    ensures ascend { OnOk result (Ascend 0 count marks.new.items) }
{
    match otherwise {
        Some(stmt) => mark_statement(stmt, count, marks),
        None => Ok(()),
    }
}

#[cycle(marking)]
fn mark_all(parts: &[TypedStmt], count: usize, marks: &mut Vec<Mark>) -> Result<(), NoMemory>
    requires { Ascend 0 count marks.old.items }
    ensures marked { OnOk result (marks.new.items ≡ mark_all count (plain_stmts parts.now) marks.old.items) }
    ensures ascend { OnOk result (Ascend 0 count marks.new.items) }
{
    for part in parts {
        mark_statement(part, count, marks)?;
    }
    Ok(())
}

#[cycle(marking)]
fn mark_arms(arms: &[TypedArm], count: usize, marks: &mut Vec<Mark>) -> Result<(), NoMemory>
    requires { Ascend 0 count marks.old.items }
    ensures marked { OnOk result (marks.new.items ≡ mark_arms count (plain_arms arms.now) marks.old.items) }
    ensures ascend { OnOk result (Ascend 0 count marks.new.items) }
{
    for arm in arms {
        mark_statement(&arm.body, count, marks)?;
    }
    Ok(())
}

/// The marks of each arm of a case and of what stands behind it, the last arm's in front.
#[derive(Drop)]
pub struct Chain {
    marks: Vec<Vec<Mark>>,
}

impl Model for Chain {
    ghost use Rattle.std.specs.Prelude.{List, map};
    ghost use Rattle.std.specs.declared.vec.Vec.{Vec};
    ghost use Rattle.std.specs.declared.alloc.Global.{Global};
    ghost use Rattle.rst_statement_gates.specs.declared.marks.Mark.{Mark};

    ghost Value = { List (List Mark) };

    ghost view = { λ c. map (λ (v : Vec Mark Global). v.items) c.marks.items };
}

impl Chain {
    fn new(alloc: Global) -> Chain
        ensures { result ≡ [] }
    {
        Chain {
            marks: Vec::new(alloc),
        }
    }

    #[tactic(auto, using(crate::proofs::Marking::chain_push))]
    fn push(&mut self, marks: Vec<Mark>) -> Result<(), NoMemory>
        ensures { IfOk result (λ _. self.new ≡ self.old ++ marks.items ∷ []) }
    {
        self.marks.push(marks)?;
        Ok(())
    }

    /// The marks of the next arm.
    #[tactic(auto, using(crate::proofs::Marking::chain_push, crate::proofs::Marking::chain_length))]
    pub fn pop(&mut self, alloc: Global) -> Vec<Mark>
        requires { 0 < length self.old }
        ensures { self.old ≡ self.new ++ result.items ∷ [] }
    {
        match self.marks.pop() {
            Some(marks) => marks,
            None => Vec::new(alloc),
        }
    }
}

/// The bits of the first `count` signals that two branches set.
pub fn branch_marks(
    alloc: Global,
    count: usize,
    first: &TypedStmt,
    second: &TypedStmt,
) -> Result<Vec<Mark>, NoMemory>
    ensures marked { IfOk result (λ marks. marks.items ≡ mark_statement count (plain_stmt second.now) (mark_statement count (plain_stmt first.now) [])) }
    ensures ascend { IfOk result (λ marks. Ascend 0 count marks.items) }
{
    let mut marks = Vec::new(alloc);
    mark_statement(first, count, &mut marks)?;
    mark_statement(second, count, &mut marks)?;
    Ok(marks)
}

/// The marks of the arms of a case.
pub fn chain_of(
    alloc: Global,
    arms: &[TypedArm],
    otherwise: &Option<Box<TypedStmt>>,
    count: usize,
) -> Result<Chain, NoMemory>
    ensures { IfOk result (λ chain. chain ≡ chain_marks count (plain_arms arms.now) (plain_default otherwise.now)) }
{
    let mut chain = Chain::new(alloc);
    let mut marks = Vec::new(alloc);
    mark_default(otherwise, count, &mut marks)?;
    let number = arms.len();
    for i in 0..number {
        mark_statement(&arms[number - 1 - i].body, count, &mut marks)?;
        chain.push(Vec::from_slice(alloc, marks.as_slice())?)?;
    }
    Ok(chain)
}
