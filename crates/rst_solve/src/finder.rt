// What the conflict-driven solver finds. Nothing of it is believed.

use rst_cdcl::{Log, Outcome, Solver};
use rst_clause::{ClauseStore, Clauses, Lit};
use rst_outside::NoMemory;
use std::alloc::Global;

/// What was found.
#[derive(Drop)]
pub enum Found {
    /// Values of all variables, from 1.
    Model(Vec<bool>),
    /// The clauses that its empty one needs.
    Refuted(Log),
    Nothing,
}

/// Conflicts that the solver may learn from, for each path that the search may note.
const CONFLICTS: u64 = 4;

// The literals as signed numbers, in place of those before.
fn take_numbers(numbers: &mut Vec<i32>, clause: &[Lit]) -> Result<(), NoMemory> {
    numbers.clear();
    for lit in clause {
        numbers.push(lit.number())?;
    }
    Ok(())
}

// Says that the clauses will come.
fn expect_all(
    solver: &mut Solver,
    numbers: &mut Vec<i32>,
    clauses: &ClauseStore,
) -> Result<(), NoMemory> {
    for i in 0..clauses.len() {
        take_numbers(numbers, clauses.get(i))?;
        solver.expect(numbers);
    }
    Ok(())
}

// Adds the clauses.
fn add_all(
    solver: &mut Solver,
    numbers: &mut Vec<i32>,
    clauses: &ClauseStore,
) -> Result<(), NoMemory> {
    for i in 0..clauses.len() {
        take_numbers(numbers, clauses.get(i))?;
        solver.add(numbers)?;
    }
    Ok(())
}

// A solver with the clauses.
fn load(alloc: Global, clauses: &Clauses) -> Result<Solver, NoMemory> {
    let mut solver = Solver::new(alloc, clauses.vars, 0)?;
    let mut numbers = Vec::new(alloc);
    expect_all(&mut solver, &mut numbers, &clauses.fixed)?;
    expect_all(&mut solver, &mut numbers, &clauses.required)?;
    solver.make_room()?;
    add_all(&mut solver, &mut numbers, &clauses.fixed)?;
    add_all(&mut solver, &mut numbers, &clauses.required)?;
    Ok(solver)
}

/// Lets the solver search, with a number of conflicts that grows with `left`.
pub fn find(alloc: Global, clauses: &Clauses, left: u32) -> Result<Found, NoMemory> {
    let mut solver = load(alloc, clauses)?;
    let conflicts = CONFLICTS * (left as u64);
    match solver.solve(&[], conflicts)? {
        Outcome::Model(values) => Ok(Found::Model(values)),
        Outcome::Refuted(_) => Ok(Found::Refuted(solver.trimmed_log()?)),
        Outcome::GaveUp => Ok(Found::Nothing),
    }
}
