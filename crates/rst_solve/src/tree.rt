// Where a search stands: steps down the tree of decisions, and back.
ghost use Rattle.std.specs.Prelude.{◌≡◌, ◌+◌, ◌-◌, ◌^◌, ◌<◌, ◌≤◌, ℕ, ℤ, suc, Bool, true, false, [], ◌∷◌, length, IfOk, IfSome, OnOk, IsTrue, ◌↔◌, MatchOption, take};
ghost use Rattle.rst_value.specs.Terns.{known};
ghost use Rattle.rst_clause.specs.Literals.{AreClauses};
ghost use Rattle.rst_clause.specs.Trails.{IsComplete, IsConsistent};
ghost use Rattle.rst_solve.specs.Choices.{Knows, AllKnownTo, IsOpen, IsModel};
ghost use Rattle.rst_solve.specs.Tree.{ArePosed, IsAt, HasFalse};
ghost use Rattle.rst_solve.specs.Records.{IsOpenBelow, IsClosedBelow, IsLifted};

use crate::levels::{Level, Levels, literal};
use rst_clause::{Clauses, IndexedClauses, Log, Trail, propagate};
use rst_gate::{Bits, Cube};
use rst_outside::NoMemory;
use rst_value::Tern;
use std::alloc::Global;

/// The clauses to search, over the variables 1 to `vars`, of which 1 to `free` are the free bits.
#[derive(Drop)]
pub struct Posed {
    pub alloc: Global,
    pub free: u32,
    pub vars: u32,
    pub all: IndexedClauses,
    pub ghost few: { vars < 2 ^ 31 },
    pub ghost below: { free < vars },
    pub ghost in_range: { AreClauses vars all },
    pub ghost posed: { ∥ ArePosed free vars all ∥₁ },
}

/// What stands, the decisions, the same as a path, the lines of the log, and the paths.
#[derive(Drop)]
pub struct Tree {
    pub trail: Trail,
    pub levels: Levels,
    pub path: Vec<Tern>,
    pub log: Log,
    pub paths: Vec<Cube>,
}

// The place of the bit's value.
fn place(value: bool) -> Tern
    ensures { result ≡ known value }
{
    if value { Tern::One } else { Tern::Zero }
}

// Whether one of the bit's literals stands.
fn is_known(trail: &Trail, bit: u32) -> bool
    requires bit { bit < trail.now.vars }
    requires small { trail.now.vars < 2 ^ 31 }
    ensures known { IsTrue result → Knows trail.now.lits bit }
    ensures unknown { result ≡ false → IsOpen trail.now.lits bit }
{
    let high = literal(bit, true);
    if trail.has(high) {
        return true;
    }
    trail.has(high.opposite())
}

/// Decides an open bit, where propagation is complete.
pub fn decide(q: &Posed, t: &mut Tree, bit: u32, value: bool) -> Result<(), NoMemory>
    requires at { IsAt q.now.free q.now.vars q.now.all t.old }
    requires complete { IsComplete t.old.trail.lits q.now.all }
    requires bit { bit < q.now.free }
    requires known { AllKnownTo t.old.trail.lits bit }
    requires is_open { IsOpen t.old.trail.lits bit }
    ensures at { OnOk result (IsAt q.now.free q.now.vars q.now.all t.new) }
    ensures levels { OnOk result (t.new.levels ≡ record { bit = bit; value = value; floor = length t.old.trail.lits } ∷ t.old.levels) }
    ensures known { OnOk result (AllKnownTo t.new.trail.lits (suc bit)) }
    ensures before { OnOk result (take (length t.old.trail.lits) t.new.trail.lits ≡ t.old.trail.lits) }
    ensures log { t.new.log ≡ t.old.log }
    ensures paths { t.new.paths ≡ t.old.paths }
{
    let floor = t.trail.len();
    t.levels.push(Level { bit, value, floor })?;
    t.trail.push(literal(bit, value), 0)?;
    t.path[bit as usize] = place(value);
    Ok(())
}

/// Propagates. Whether no clause is false. Before the literals from `from` on the first `since`
/// clauses were complete.
pub fn spread(q: &Posed, t: &mut Tree, from: usize, since: usize) -> Result<bool, NoMemory>
    requires at { IsAt q.now.free q.now.vars q.now.all t.old }
    requires from { from ≤ length t.old.trail.lits }
    requires complete { IsComplete (take from t.old.trail.lits) (take since q.now.all) }
    ensures at { OnOk result (IsAt q.now.free q.now.vars q.now.all t.new) }
    ensures complete { IfOk result (λ yes. yes ≡ true → IsComplete t.new.trail.lits q.now.all) }
    ensures conflict { IfOk result (λ yes. yes ≡ false → HasFalse q.now.all t.new.trail.lits) }
    ensures known { OnOk result ((n : ℕ) → AllKnownTo t.old.trail.lits n → AllKnownTo t.new.trail.lits n) }
    ensures levels { t.new.levels ≡ t.old.levels }
    ensures log { t.new.log ≡ t.old.log }
    ensures paths { t.new.paths ≡ t.old.paths }
{
    match propagate(&mut t.trail, &q.all, from, since)? {
        Some(_) => Ok(false),
        None => Ok(true),
    }
}

/// Decides the open bits from `from` on, each to 0, until a clause is false. Whether none is, and
/// all free bits are known.
pub fn descend(q: &Posed, t: &mut Tree, from: u32) -> Result<bool, NoMemory>
    requires below { IsOpenBelow q.now.free q.now.vars q.now.all t.old }
    requires complete { IsComplete t.old.trail.lits q.now.all }
    requires known { AllKnownTo t.old.trail.lits from }
    requires from { from ≤ q.now.free }
    ensures below { OnOk result (IsOpenBelow q.now.free q.now.vars q.now.all t.new) }
    ensures complete { IfOk result (λ yes. yes ≡ true → IsComplete t.new.trail.lits q.now.all) }
    ensures known { IfOk result (λ yes. yes ≡ true → AllKnownTo t.new.trail.lits q.now.free) }
    ensures conflict { IfOk result (λ yes. yes ≡ false → HasFalse q.now.all t.new.trail.lits) }
    ensures paths { t.new.paths ≡ t.old.paths }
{
    for bit in from..q.free {
        if is_known(&t.trail, bit) {
            continue;
        }
        let floor = t.trail.len();
        decide(q, t, bit, false)?;
        let complete = spread(q, t, floor, q.all.len())?;
        if !complete {
            return Ok(false);
        }
    }
    Ok(true)
}

/// Closes the part below the decisions, where a clause is false: notes the path, and the line that
/// denies the decisions.
pub fn close(q: &Posed, t: &mut Tree) -> Result<(), NoMemory>
    requires below { IsOpenBelow q.now.free q.now.vars q.now.all t.old }
    requires conflict { HasFalse q.now.all t.old.trail.lits }
    ensures closed { OnOk result (IsClosedBelow q.now.free q.now.vars q.now.all t.new) }
    ensures count { OnOk result (length t.new.paths.items ≡ length t.old.paths.items + 1) }
{
    let _stand = t.trail.len();
    let path = Cube::from_slice(q.alloc, &t.path)?;
    let line = t.levels.denied(q.alloc)?;
    t.paths.push(path)?;
    t.log.push(line)?;
    Ok(())
}
