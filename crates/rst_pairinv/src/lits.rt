// Literals as numbers without a sign: twice a variable, and one more where it is negated.

use rst_gate::{Bits, Edge};
use rst_outside::NoMemory;
use rst_value::Tern;
use std::alloc::Global;

/// The literal that is false: of the first variable.
pub(crate) const FALSE: u32 = 2;

pub(crate) fn not(lit: u32) -> u32 {
    if lit % 2 == 0 { lit + 1 } else { lit - 1 }
}

/// A number as 32 bits, or the greatest of those where it does not fit.
pub(crate) fn narrow(number: usize) -> u32 {
    if number < 0xFFFF_FFFF {
        number as u32
    } else {
        0xFFFF_FFFF
    }
}

/// The literal of a variable.
pub(crate) fn of_variable(variable: u32) -> u32 {
    variable.saturating_mul(2)
}

/// The literal as a signed number of its variable.
pub(crate) fn number(lit: u32) -> i32 {
    let variable = (lit / 2) as i32;
    if lit % 2 == 0 { variable } else { -variable }
}

/// The literal of a signed number.
pub(crate) fn of_number(number: i32) -> u32 {
    let lit = of_variable(number.unsigned_abs());
    if number < 0 { not(lit) } else { lit }
}

pub(crate) fn lit_at(lits: &[u32], place: usize) -> u32 {
    if place < lits.len() {
        lits[place]
    } else {
        FALSE
    }
}

/// The literal of an edge, by those of the nodes.
pub(crate) fn lit_of(nodes: &[u32], edge: Edge) -> u32 {
    let lit = lit_at(nodes, edge.node as usize);
    if edge.inverted { not(lit) } else { lit }
}

/// The literals of edges.
pub(crate) fn lits_of(alloc: Global, edges: &[Edge], nodes: &[u32]) -> Result<Vec<u32>, NoMemory> {
    let mut lits = Vec::new(alloc);
    for edge in edges {
        lits.push(lit_of(nodes, *edge))?;
    }
    Ok(lits)
}

fn value(values: &[bool], lit: u32) -> bool {
    let variable = (lit / 2) as usize;
    if variable == 0 || variable > values.len() {
        return false;
    }
    values[variable - 1] != (lit % 2 == 1)
}

/// The literals' values, by those of the variables from 1 on.
pub(crate) fn values_of(alloc: Global, values: &[bool], lits: &[u32]) -> Result<Bits, NoMemory> {
    let mut bits = Bits::new(alloc);
    for lit in lits {
        bits.push(value(values, *lit))?;
    }
    Ok(bits)
}

/// What a cube's known places say of these literals, place by place.
pub(crate) fn said(alloc: Global, cube: &[Tern], lits: &[u32]) -> Result<Vec<u32>, NoMemory> {
    let mut known = Vec::new(alloc);
    for i in 0..cube.len() {
        let lit = lit_at(lits, i);
        match cube[i] {
            Tern::Zero => known.push(not(lit))?,
            Tern::One => known.push(lit)?,
            Tern::Unknown => {}
        }
    }
    Ok(known)
}

/// The literals as signed numbers, their opposites where they are to be denied.
pub(crate) fn numbers_of(alloc: Global, lits: &[u32], deny: bool) -> Result<Vec<i32>, NoMemory> {
    let mut numbers = Vec::new(alloc);
    for lit in lits {
        numbers.push(number(if deny { not(*lit) } else { *lit }))?;
    }
    Ok(numbers)
}

/// One list behind the other.
pub(crate) fn joined(alloc: Global, first: &[u32], second: &[u32]) -> Result<Vec<u32>, NoMemory> {
    let mut all = Vec::new(alloc);
    all.extend_from_slice(first)?;
    all.extend_from_slice(second)?;
    Ok(all)
}
