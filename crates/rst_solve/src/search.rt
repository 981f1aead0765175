// The search of the tree of decisions.
ghost use Rattle.std.specs.Prelude.{◌≡◌, ◌+◌, ◌^◌, ◌<◌, ◌≤◌, ℕ, true, false, [], length, replicate, IfOk, OnOk};
ghost use Rattle.rst_value.specs.declared.tern.Tern.TheVariants.{Unknown};
ghost use Rattle.rst_clause.specs.Trails.{IsComplete, IsConsistent};
ghost use Rattle.rst_solve.specs.Choices.{AllKnownTo, IsModel};
ghost use Rattle.rst_solve.specs.Tree.{IsAt, HasFalse};
ghost use Rattle.rst_solve.specs.Records.{IsOpenBelow};
ghost use Rattle.rst_solve.specs.Answers.{AnswersTo};

use crate::climb::{climb, turn};
use crate::levels::{Levels, literal};
use crate::solver::Answer;
use crate::tree::{Posed, Tree, close, descend, spread};
use rst_clause::{Log, Trail};
use rst_gate::Bits;
use rst_outside::NoMemory;
use rst_value::Tern;
use std::alloc::Global;

// No decision stands, and nothing is noted.
fn start(q: &Posed) -> Result<Tree, NoMemory>
    ensures below { IfOk result (λ t. IsOpenBelow q.now.free q.now.vars q.now.all t) }
    ensures paths { IfOk result (λ t. t.paths.items ≡ []) }
    ensures nothing { IfOk result (λ t. t.trail.lits ≡ []) }
{
    let width = q.free as usize;
    Ok(Tree {
        trail: Trail::new(q.alloc, q.vars)?,
        levels: Levels::new(q.alloc),
        path: vec![in q.alloc; Tern::Unknown; width]?,
        log: Log::new(q.alloc),
        paths: Vec::new(q.alloc),
    })
}

// The values of the free bits.
fn model_of(alloc: Global, trail: &Trail, free: u32) -> Result<Bits, NoMemory>
    requires free { free < trail.now.vars }
    requires small { trail.now.vars < 2 ^ 31 }
    ensures right { IfOk result (λ bits. IsModel trail.now.lits free bits) }
    ensures consistent { IsConsistent trail.now.lits }
{
    let _stand = trail.len();
    let mut bits = Bits::new(alloc);
    for bit in 0..free {
        bits.push(trail.has(literal(bit, true)))?;
    }
    Ok(bits)
}

// The model of a tree whose free bits are known, with its paths.
fn found(q: &Posed, t: Tree, left: u32) -> Result<Answer, NoMemory>
    requires below { IsOpenBelow q.now.free q.now.vars q.now.all t }
    requires complete { IsComplete t.trail.lits q.now.all }
    requires known { AllKnownTo t.trail.lits q.now.free }
    requires few { length t.paths.items ≤ left }
    ensures { IfOk result (λ a. AnswersTo q.now.free q.now.vars q.now.all left a) }
{
    let bits = model_of(q.alloc, &t.trail, q.free)?;
    Ok(Answer::Model {
        bits,
        paths: t.paths,
    })
}

// Goes down from an open bit, where propagation is complete. Whether all free bits are known, and
// no clause is false.
fn reach(q: &Posed, t: &mut Tree, complete: bool, next: u32) -> Result<bool, NoMemory>
    requires below { IsOpenBelow q.now.free q.now.vars q.now.all t.old }
    requires complete { complete ≡ true → IsComplete t.old.trail.lits q.now.all }
    requires conflict { complete ≡ false → HasFalse q.now.all t.old.trail.lits }
    requires known { AllKnownTo t.old.trail.lits next }
    requires next { next ≤ q.now.free }
    ensures below { OnOk result (IsOpenBelow q.now.free q.now.vars q.now.all t.new) }
    ensures complete { IfOk result (λ yes. yes ≡ true → IsComplete t.new.trail.lits q.now.all) }
    ensures known { IfOk result (λ yes. yes ≡ true → AllKnownTo t.new.trail.lits q.now.free) }
    ensures conflict { IfOk result (λ yes. yes ≡ false → HasFalse q.now.all t.new.trail.lits) }
    ensures paths { t.new.paths ≡ t.old.paths }
{
    if !complete {
        return Ok(false);
    }
    let reached = descend(q, t, next)?;
    Ok(reached)
}

/// Searches the tree of decisions on free bits, in order and 0 first, with at most `left` paths.
pub fn search(q: &Posed, left: u32) -> Result<Answer, NoMemory>
    ensures { IfOk result (λ a. AnswersTo q.now.free q.now.vars q.now.all left a) }
{
    let mut t = start(q)?;
    let mut complete = spread(q, &mut t, 0, 0)?;
    let mut next = 0u32;
    for _ in 0..left {
        let reached = reach(q, &mut t, complete, next)?;
        if reached {
            return found(q, t, left);
        }
        close(q, &mut t)?;
        let level = match climb(q, &mut t)? {
            Some(level) => level,
            None => {
                return Ok(Answer::Refuted {
                    log: t.log,
                    paths: t.paths,
                });
            }
        };
        complete = turn(q, &mut t, level)?;
        next = level.bit + 1;
    }
    let reached = reach(q, &mut t, complete, next)?;
    if reached {
        return found(q, t, left);
    }
    Ok(Answer::Spent { paths: t.paths })
}
