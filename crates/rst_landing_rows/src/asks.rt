// What landing answers about a circuit beside itself.
ghost use Rattle.std.specs.Prelude.{◌≡◌, ℕ, true, false, slice_index_or, IsTrue, IfOk};
ghost use Rattle.rst_pair.specs.declared.query.Query.TheVariants.{Split};
ghost use Rattle.rst_pair.specs.Sides.{AreSides};
ghost use Rattle.rst_pose.specs.Posing.{IsPosable};
ghost use Rattle.rst_pose.specs.Works.{HasNoCase};

use rst_gate::{Gates, Pattern, Sequence};
use rst_landing::{Landing, lands};
use rst_outside::NoMemory;
use rst_pair::{Front, Pair, Query};
use rst_pose::{is_posable, pose};
use rst_solve::{Answer, solve};
use std::alloc::Global;

/// An answer, with its number of entries, and of Outside the number of the cube, the first bits of
/// both states, and the first input bit of the filling's cycles.
#[derive(Clone, Copy, Debug)]
pub(crate) enum Told {
    Inside(usize),
    Outside(u32, [bool; 2], [bool; 2], [bool; 2]),
    Spent(usize),
    /// The front or the pattern doesn't fit the circuit, a register is marked, or a pair splits.
    Unasked,
}

fn are_sides(pair: &Pair)
    ensures { AreSides pair.now }
{
    let left = pair.left;
    let right = pair.right;
    let _first = left.states;
    let _second = right.states;
}

// Whether no bit is set.
fn are_clear(marks: &[bool]) -> bool
    ensures { IsTrue result → (i : ℕ) → slice_index_or marks.now i false ≡ true → ⊥ }
{
    for marked in marks {
        if *marked {
            return false;
        }
    }
    true
}

// Whether no register is marked.
fn is_unmarked(front: &Front) -> bool
    ensures { IsTrue result → (i : ℕ) → slice_index_or front.now.equal i false ≡ true → ⊥ }
{
    are_clear(front.equal.as_slice())
}

// Whether the solver shows that no pair splits.
fn splits_nowhere(alloc: Global, pair: &Pair, front: &Front) -> Result<bool, NoMemory>
    requires unmarked { (i : ℕ) → slice_index_or front.now.equal i false ≡ true → ⊥ }
    requires posable { IsPosable pair.now front.now Split }
    ensures { IfOk result (λ none. IsTrue none → HasNoCase pair.now front.now Split) }
{
    are_sides(pair);
    let clauses = pose(alloc, pair, front, &Query::Split)?;
    match solve(alloc, &clauses, 1000)? {
        Answer::Refuted { log: _, paths: _ } => Ok(true),
        _ => Ok(false),
    }
}

fn bit_at(bits: &[bool], i: usize) -> bool {
    i < bits.len() && bits[i]
}

fn first_bits(bits: &[bool]) -> [bool; 2] {
    [bit_at(bits, 0), bit_at(bits, 1)]
}

fn input_at(word: &Sequence, i: usize) -> bool {
    i < word.len() && bit_at(word.get(i).as_slice(), 0)
}

fn told_by(answer: &Landing) -> Told {
    match answer {
        Landing::Inside { log: _, journal } => Told::Inside(journal.len()),
        Landing::Outside {
            a,
            b,
            fill,
            cube,
            journal: _,
        } => Told::Outside(
            *cube,
            first_bits(a.as_slice()),
            first_bits(b.as_slice()),
            [input_at(fill, 0), input_at(fill, 1)],
        ),
        Landing::Spent { journal } => Told::Spent(journal.len()),
    }
}

/// What landing answers about the circuit beside itself, with so many units of work.
pub(crate) fn ask(
    alloc: Global,
    gates: &Gates,
    front: &Front,
    seq: Pattern,
    left: u32,
) -> Result<Told, NoMemory> {
    let pair = Pair {
        left: gates,
        right: gates,
    };
    let query = Query::LandFree(seq);
    if !is_unmarked(front)
        || !is_posable(&pair, front, &query)
        || !is_posable(&pair, front, &Query::Split)
    {
        return Ok(Told::Unasked);
    }
    if !splits_nowhere(alloc, &pair, front)? {
        return Ok(Told::Unasked);
    }
    match &query {
        Query::LandFree(seq) => {
            let answer = lands(alloc, &pair, seq, front, left)?;
            Ok(told_by(&answer))
        }
        _ => Ok(Told::Unasked),
    }
}
