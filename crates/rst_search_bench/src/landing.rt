// A query about a netlist beside itself, posed and solved.
use crate::netlist::{GATES, netlist};
use rst_clause::Clauses;
use rst_gate::{Bits, Cube, Sequence};
use rst_outside::NoMemory;
use rst_pair::{Front, Hop, Pair, Query};
use rst_pose::{is_posable, pose};
use rst_solve::{Answer, solve};
use rst_value::Tern;
use std::alloc::Global;
use std::io;

// How many variables and clauses a query has.
#[derive(Clone, Copy)]
struct Counts {
    vars: u32,
    fixed: usize,
    required: usize,
}

// One blocked hop: the left register is 1, and the right one 0.
fn front(alloc: Global) -> Result<Front, NoMemory> {
    let mut blocked = Vec::new(alloc);
    blocked.push(Hop {
        cube: Cube::from_slice(alloc, &[Tern::One, Tern::Zero])?,
        input: Bits::from_slice(alloc, &[false])?,
        next: None,
    })?;
    Ok(Front {
        equal: Bits::from_slice(alloc, &[false])?,
        blocked,
        freed: Vec::new(alloc),
    })
}

fn word(alloc: Global, cycles: u32) -> Result<Sequence, NoMemory> {
    let mut word = Sequence::new(alloc);
    for cycle in 0..cycles {
        word.push(Bits::from_slice(alloc, &[cycle % 2 == 0])?)?;
    }
    Ok(word)
}

// Land behind a word of so many cycles; none where the query isn't within the limits.
fn posed_land(alloc: Global, cycles: u32) -> Result<Option<Clauses>, NoMemory> {
    let gates = netlist(alloc, GATES, 1)?;
    let front = front(alloc)?;
    let query = Query::Land(word(alloc, cycles)?);
    let pair = Pair {
        left: &gates,
        right: &gates,
    };
    if !is_posable(&pair, &front, &query) {
        return Ok(None);
    }
    let clauses = pose(alloc, &pair, &front, &query)?;
    Ok(Some(clauses))
}

// The counts of the query; none where it isn't within the limits.
fn count_land(alloc: Global, cycles: u32) -> Result<Option<Counts>, NoMemory> {
    match &posed_land(alloc, cycles)? {
        Some(clauses) => Ok(Some(Counts {
            vars: clauses.vars,
            fixed: clauses.fixed.len(),
            required: clauses.required.len(),
        })),
        None => Ok(None),
    }
}

// What the solver finds of the query, in a word.
fn solve_land(alloc: Global, cycles: u32) -> Result<&'static str, NoMemory> {
    match &posed_land(alloc, cycles)? {
        Some(clauses) => match &solve(alloc, clauses, 1000)? {
            Answer::Model { bits: _, paths: _ } => Ok("model"),
            Answer::Refuted { log: _, paths: _ } => Ok("refuted"),
            Answer::Spent { paths: _ } => Ok("spent"),
        },
        None => Ok("not within the limits"),
    }
}

/// Poses Land behind a word of so many cycles, and prints how many variables and clauses it has.
pub(crate) fn print_land<R: Print + AllocGlobal>(rt: &R, cycles: u32) -> io::Result<()> {
    match count_land(rt.alloc(), cycles) {
        Ok(Some(counts)) => println!(rt;
            "variables {} fixed {} required {}",
            counts.vars, counts.fixed, counts.required
        ),
        Ok(None) => println!(rt; "not within the limits"),
        Err(NoMemory) => println!(rt; "no memory"),
    }
}

/// Poses Land behind a word of so many cycles, solves it, and prints what was found.
pub(crate) fn print_solved<R: Print + AllocGlobal>(rt: &R, cycles: u32) -> io::Result<()> {
    match solve_land(rt.alloc(), cycles) {
        Ok(found) => println!(rt; "{found}"),
        Err(NoMemory) => println!(rt; "no memory"),
    }
}
