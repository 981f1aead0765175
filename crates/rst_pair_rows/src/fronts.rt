// Fronts of a circuit beside itself, and what the solver finds for a query.
use rst_clause::Clauses;
use rst_gate::{Bits, Cube, Gates};
use rst_outside::NoMemory;
use rst_pair::{Front, Hop, Pair, Query};
use rst_pose::{is_posable, pose};
use rst_solve::{Answer, solve};
use rst_value::Tern;
use std::alloc::Global;

/// What the solver finds: a case, of which the first three bits are told, that there is none, or
/// neither.
#[derive(Clone, Copy, Debug)]
pub(crate) enum Found {
    Case([bool; 3]),
    Nothing,
    Neither,
}

/// Whether there is a case with bits at two places that differ.
pub(crate) fn differs(found: Found, i: usize, j: usize) -> bool {
    match found {
        Found::Case(bits) => i < 3 && j < 3 && bits[i] != bits[j],
        _ => false,
    }
}

/// Whether there is a case with this bit.
pub(crate) fn has(found: Found, i: usize, bit: bool) -> bool {
    match found {
        Found::Case(bits) => i < 3 && bits[i] == bit,
        _ => false,
    }
}

/// Whether there is no case.
pub(crate) fn is_nothing(found: Found) -> bool {
    matches!(found, Found::Nothing)
}

// Hops without a next one, whose input is this bit.
fn hops(alloc: Global, cubes: &[[Tern; 2]], input: bool) -> Result<Vec<Hop>, NoMemory> {
    let mut list = Vec::new(alloc);
    for cube in cubes {
        let cube = Cube::from_slice(alloc, cube.as_slice())?;
        let input = Bits::from_slice(alloc, &[input])?;
        list.push(Hop {
            cube,
            input,
            next: None,
        })?;
    }
    Ok(list)
}

/// A front of one register and one input: whether the register is marked, and the cubes of its hops.
/// Blocked hops take the input 0, and freed ones 1.
pub(crate) fn front(
    alloc: Global,
    marked: bool,
    blocked: &[[Tern; 2]],
    freed: &[[Tern; 2]],
) -> Result<Front, NoMemory> {
    let equal = Bits::from_slice(alloc, &[marked])?;
    let blocked = hops(alloc, blocked, false)?;
    let freed = hops(alloc, freed, true)?;
    Ok(Front {
        equal,
        blocked,
        freed,
    })
}

/// The posed clauses of a query about the circuit beside itself.
pub(crate) fn posed(
    alloc: Global,
    gates: &Gates,
    front: &Front,
    query: &Query,
) -> Result<Option<Clauses>, NoMemory> {
    let pair = Pair {
        left: gates,
        right: gates,
    };
    if !is_posable(&pair, front, query) {
        return Ok(None);
    }
    let clauses = pose(alloc, &pair, front, query)?;
    Ok(Some(clauses))
}

fn bit_at(bits: &[bool], i: usize) -> bool {
    i < bits.len() && bits[i]
}

// What the solver finds for clauses.
fn search(alloc: Global, clauses: &Clauses) -> Result<Found, NoMemory> {
    match &solve(alloc, clauses, 1000)? {
        Answer::Model { bits, paths: _ } => {
            let bits = bits.as_slice();
            Ok(Found::Case([bit_at(bits, 0), bit_at(bits, 1), bit_at(bits, 2)]))
        }
        Answer::Refuted { log: _, paths: _ } => Ok(Found::Nothing),
        Answer::Spent { paths: _ } => Ok(Found::Neither),
    }
}

/// What the solver finds for a query about the circuit beside itself.
pub(crate) fn ask(
    alloc: Global,
    gates: &Gates,
    front: &Front,
    query: &Query,
) -> Result<Found, NoMemory> {
    match &posed(alloc, gates, front, query)? {
        Some(clauses) => search(alloc, clauses),
        None => Ok(Found::Neither),
    }
}
