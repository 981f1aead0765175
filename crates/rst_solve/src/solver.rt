ghost use Rattle.std.specs.Prelude.{◌≡◌, ◌≤◌, ◌<◌, IfOk, IfSome, IsTrue, replicate, length, ◌∷◌, []};
ghost use Rattle.rst_value.specs.declared.tern.Tern.TheVariants.{Unknown};
ghost use Rattle.rst_clause.specs.Literals.{Solves};
ghost use Rattle.rst_clause.specs.Passes.{clauses_of};
ghost use Rattle.rst_clause.specs.Solutions.{IsSolution};
ghost use Rattle.rst_solve.specs.Choices.{choice_of};
ghost use Rattle.rst_solve.specs.Answers.{Answers, EndsEmptyAlone};

use crate::evaluate::solves;
use crate::finder::{Found, find};
use crate::proposal::{hints_of, log_of};
use crate::search::search;
use crate::tree::Posed;
use rst_check::{Hints, refutes_by};
use rst_clause::{Clauses, Log};
use rst_gate::{Bits, Cube};
use rst_outside::NoMemory;
use rst_value::Tern;
use std::alloc::Global;

/// What a search found, with its paths: places of the free bits at which it met conflicts.
#[derive(Drop)]
pub enum Answer {
    /// Values of the free bits that solve the clauses.
    Model { bits: Bits, paths: Vec<Cube> },
    /// A log that refutes the clauses.
    Refuted { log: Log, paths: Vec<Cube> },
    /// As many paths as were allowed.
    Spent { paths: Vec<Cube> },
}

// The values of the free bits, where the values of the variables from 1 on solve the clauses.
fn model(alloc: Global, clauses: &Clauses, values: &[bool]) -> Result<Option<Bits>, NoMemory>
    ensures { IfOk result (λ found. IfSome found (λ bits. IsSolution clauses.now.free (clauses_of clauses.now) bits)) }
{
    let width = clauses.free as usize;
    if values.len() < width
        || !solves(values, &clauses.fixed)
        || !solves(values, &clauses.required)
    {
        return Ok(None);
    }
    Ok(Some(Bits::from_slice(alloc, &values[..width])?))
}

// The path of all X, alone.
fn whole(alloc: Global, free: u32) -> Result<Vec<Cube>, NoMemory>
    ensures { IfOk result (λ paths. paths.items ≡ replicate free Unknown ∷ []) }
{
    let width = free as usize;
    let places = vec![in alloc; Tern::Unknown; width]?;
    let mut paths = Vec::new(alloc);
    paths.push(Cube::from_slice(alloc, &places)?)?;
    Ok(paths)
}

// The answer of a log, where it refutes.
fn refuted(
    alloc: Global,
    clauses: &Clauses,
    left: u32,
    log: Log,
    hints: &Hints,
) -> Result<Option<Answer>, NoMemory>
    requires { EndsEmptyAlone log }
    ensures { IfOk result (λ found. IfSome found (λ a. Answers clauses.now left a)) }
{
    if left == 0 || !refutes_by(alloc, clauses, &log, hints)? {
        return Ok(None);
    }
    let paths = whole(alloc, clauses.free)?;
    Ok(Some(Answer::Refuted { log, paths }))
}

// The answer of the lines, up to the first that is empty, where they refute.
fn proposed(
    alloc: Global,
    clauses: &Clauses,
    left: u32,
    lines: &rst_cdcl::Log,
) -> Result<Option<Answer>, NoMemory>
    ensures { IfOk result (λ found. IfSome found (λ a. Answers clauses.now left a)) }
{
    let Some(log) = log_of(alloc, lines)? else {
        return Ok(None);
    };
    let hints = hints_of(alloc, clauses, &log, lines)?;
    refuted(alloc, clauses, left, log, &hints)
}

// What the finder found, where the checks bear it out.
fn checked(alloc: Global, clauses: &Clauses, left: u32) -> Result<Option<Answer>, NoMemory>
    ensures { IfOk result (λ found. IfSome found (λ a. Answers clauses.now left a)) }
{
    match find(alloc, clauses, left)? {
        Found::Model(values) => match model(alloc, clauses, &values)? {
            Some(bits) => {
                let paths = Vec::new(alloc);
                Ok(Some(Answer::Model { bits, paths }))
            }
            None => Ok(None),
        },
        Found::Refuted(lines) => proposed(alloc, clauses, left, &lines),
        Found::Nothing => Ok(None),
    }
}

/// Searches for a solution of the clauses, with at most `left` paths.
///
/// First a conflict-driven solver searches, with four conflicts for each path that is allowed. Its
/// model is evaluated, and its log replayed; a refutation has one path then, in which no place is
/// known. Where the solver gives up, or what it found does not pass, a tree of decisions on the
/// free bits is searched, in their order.
///
/// The paths are pairwise disjoint, tight on the clauses, and none has a solution. A model solves
/// the clauses. Refuted has at least one path, its log passes, and only its last clause is empty.
/// Spent has exactly `left` paths, and comes only where `left` is below the number of choices of
/// the free bits. NoMemory where there is no memory for the clauses, the trail or the paths.
pub fn solve(alloc: Global, clauses: &Clauses, left: u32) -> Result<Answer, NoMemory>
    ensures { IfOk result (λ a. Answers clauses.now left a) }
{
    if let Some(answer) = checked(alloc, clauses, left)? {
        return Ok(answer);
    }
    let q = Posed {
        alloc,
        free: clauses.free,
        vars: clauses.vars,
        all: clauses.all(alloc)?,
    };
    search(&q, left)
}

/// Answers as `solve` does. First it replays the proposed lines, up to the first that is empty: where
/// they refute the clauses, they are the log, with one path in which no place is known. Else it
/// searches.
pub fn solve_by(
    alloc: Global,
    clauses: &Clauses,
    left: u32,
    lines: &rst_cdcl::Log,
) -> Result<Answer, NoMemory>
    ensures { IfOk result (λ a. Answers clauses.now left a) }
{
    if let Some(answer) = proposed(alloc, clauses, left, lines)? {
        return Ok(answer);
    }
    solve(alloc, clauses, left)
}
