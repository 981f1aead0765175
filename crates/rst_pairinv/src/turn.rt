// One question: whether a pair of the relation splits, and what is noted of the answer.

ghost use Rattle.std.specs.Prelude.{◌≡◌, ◌+◌, ◌<◌, ◌≤◌, ◌++◌, length, map, IfOk, OnOk, IfSome, IfNone};
ghost use Rattle.rst_clause.specs.Solutions.{IsSolution};
ghost use Rattle.rst_pair.specs.declared.query.Query.TheVariants.{Split};
ghost use Rattle.rst_pair.specs.Fronts.{IsFront};
ghost use Rattle.rst_pose.specs.Posed.{posed};
ghost use Rattle.rst_pose.specs.Posing.{IsSmall, IsWithin};
ghost use Rattle.rst_pairinv.specs.Refining.{AreMarked, Refutes};
ghost use Rattle.rst_pairinv.specs.Turns.{IsRefining, IsFresh, AnswersSplit, clauses_posed, conflict_of};

use crate::block::{Refining, block};
use crate::states::{are_sides, sharing_state};
use rst_clause::Log;
use rst_gate::Cube;
use rst_outside::NoMemory;
use rst_pair::{Entry, Front, Kind, Pair, Query};
use rst_pose::pose;
use rst_solve::{Answer, solve_by};
use std::alloc::Global;

// What the search answers to the question, after these lines were tried.
fn ask(
    alloc: Global,
    pair: &Pair,
    front: &Front,
    left: u32,
    lines: &rst_cdcl::Log,
) -> Result<Answer, NoMemory>
    requires { IsWithin pair.now front.now }
    ensures { IfOk result (λ answer. AnswersSplit pair.now front.now left answer) }
{
    let clauses = pose(alloc, pair, front, &Query::Split)?;
    let answer = solve_by(alloc, &clauses, left, lines)?;
    Ok(answer)
}

// An entry for each path.
fn note_paths(alloc: Global, so_far: &mut Refining, paths: &[Cube]) -> Result<(), NoMemory>
    ensures front { OnOk result (so_far.new.front ≡ so_far.old.front) }
    ensures journal { OnOk result (so_far.new.journal ≡ so_far.old.journal ++ map conflict_of paths.now) }
{
    for path in paths {
        let copy = Cube::from_slice(alloc, path.as_slice())?;
        so_far.journal.push(Entry::Conflict(Kind::Split, copy))?;
    }
    Ok(())
}

// Blocks the pair of a solution.
fn block_case(
    alloc: Global,
    pair: &Pair,
    so_far: &mut Refining,
    bits: &[bool],
) -> Result<(), NoMemory>
    requires at { IsRefining pair.now so_far.old }
    requires marked { AreMarked pair.now so_far.old.front.equal }
    requires few { length so_far.old.journal < 100000 }
    requires solution { IsSolution (posed pair.now so_far.old.front Split).free (clauses_posed pair.now so_far.old.front) bits.now }
    ensures at { OnOk result (IsRefining pair.now so_far.new) }
    ensures fresh { OnOk result (IsFresh so_far.new.journal) }
    ensures equal { OnOk result (so_far.new.front.equal ≡ so_far.old.front.equal) }
    ensures longer { OnOk result (length so_far.new.journal ≡ length so_far.old.journal + 1) }
{
    are_sides(pair);
    let left_gates = pair.left;
    let right_gates = pair.right;
    let inputs = left_gates.inputs as usize;
    let behind = inputs + left_gates.states as usize;
    let input = &bits[..inputs];
    let left = &bits[inputs..behind];
    let front = &so_far.front;
    let marks = front.equal.as_slice();
    let right = sharing_state(alloc, right_gates.states, marks, left, &bits[behind..])?;
    block(alloc, pair, so_far, input, left, right.as_slice())
}

// Asks once, and notes the answer: paths, and a blocked pair where one splits and a unit is left.
// The log refutes the question, and is that of the lines where they do.
pub(crate) fn turn(
    alloc: Global,
    pair: &Pair,
    so_far: &mut Refining,
    left: u32,
    lines: &rst_cdcl::Log,
) -> Result<Option<Log>, NoMemory>
    requires small_left { IsSmall pair.now.left }
    requires small_right { IsSmall pair.now.right }
    requires marked { AreMarked pair.now so_far.old.front.equal }
    requires at { IsRefining pair.now so_far.old }
    requires fresh { IsFresh so_far.old.journal }
    requires few { length so_far.old.journal < left }
    requires left { left ≤ 100000 }
    ensures at { OnOk result (IsRefining pair.now so_far.new) }
    ensures equal { OnOk result (so_far.new.front.equal ≡ so_far.old.front.equal) }
    ensures longer { OnOk result (length so_far.old.journal < length so_far.new.journal) }
    ensures few { OnOk result (length so_far.new.journal ≤ left) }
    ensures fresh { IfOk result (λ log. IfNone log (length so_far.new.journal < left → IsFresh so_far.new.journal)) }
    ensures refutes { IfOk result (λ log. IfSome log (λ l. Refutes pair.now so_far.new.front Split l)) }
{
    let room = left - so_far.journal.len() as u32;
    let answer = ask(alloc, pair, &so_far.front, room, lines)?;
    match answer {
        Answer::Model { bits, paths } => {
            note_paths(alloc, so_far, paths.as_slice())?;
            if so_far.journal.len() < left as usize {
                block_case(alloc, pair, so_far, bits.as_slice())?;
            }
            Ok(None)
        }
        Answer::Refuted { log, paths } => {
            note_paths(alloc, so_far, paths.as_slice())?;
            Ok(Some(log))
        }
        Answer::Spent { paths } => {
            note_paths(alloc, so_far, paths.as_slice())?;
            Ok(None)
        }
    }
}
