// The numbering of posed clauses, worked by hand.
use crate::circuits::toggle;
use crate::fronts::{front, posed};
use rst_clause::{ClauseStore, Clauses, Lit};
use rst_outside::NoMemory;
use rst_pair::Query;
use rst_value::Tern;
use rst_value::Tern::{One, Unknown, Zero};
use std::alloc::Global;
use std::test::Fail;

// Whether the posed clauses have so many free bits, these fixed clauses, each filled up with zeros,
// and those required.
fn are(posed: &Option<Clauses>, free: u32, fixed: &[[i32; 3]], required: &[[i32; 3]]) -> bool {
    match posed {
        Some(clauses) => {
            clauses.free == free && same(&clauses.fixed, fixed) && same(&clauses.required, required)
        }
        None => false,
    }
}

fn same(clauses: &ClauseStore, wanted: &[[i32; 3]]) -> bool {
    if clauses.len() != wanted.len() {
        return false;
    }
    for i in 0..wanted.len() {
        if i >= clauses.len() || !is_clause(clauses.get(i), wanted[i]) {
            return false;
        }
    }
    true
}

// Whether the literals are these, behind which there are zeros.
fn is_clause(lits: &[Lit], wanted: [i32; 3]) -> bool {
    lits.len() <= 3
        && number_at(lits, 0) == wanted[0]
        && number_at(lits, 1) == wanted[1]
        && number_at(lits, 2) == wanted[2]
}

fn number_at(lits: &[Lit], i: usize) -> i32 {
    if i < lits.len() { lits[i].number() } else { 0 }
}

// The posed clauses of a query about the toggle.
fn about(
    alloc: Global,
    marked: bool,
    blocked: &[[Tern; 2]],
    freed: &[[Tern; 2]],
    query: &Query,
) -> Result<Option<Clauses>, NoMemory> {
    let gates = toggle(alloc)?;
    let front = front(alloc, marked, blocked, freed)?;
    posed(alloc, &gates, &front, query)
}

// The free bits are the input and both states; behind the false variable 4 come the register of
// the left side, that of the right one, and whether the outputs differ.
#[test]
fn split_without_hops(rt: HostRuntime) -> Result<(), Fail> {
    let fixed = [
        [-4, 0, 0],
        [-5, -1, 4],
        [5, -1, -4],
        [-5, 1, -2],
        [5, 1, 2],
        [-6, -1, 4],
        [6, -1, -4],
        [-6, 1, -3],
        [6, 1, 3],
        [-7, 2, 3],
        [-7, -2, -3],
        [7, -2, 3],
        [7, 2, -3],
    ];
    let posed = about(rt.alloc(), false, &[], &[], &Query::Split)?;
    assert!(rt; are(&posed, 3, fixed.as_slice(), &[[7, 0, 0]]));
    Ok(())
}

// A marked register is shared: the right one has the variable 2 too.
#[test]
fn split_with_a_marked_register(rt: HostRuntime) -> Result<(), Fail> {
    let fixed = [
        [-3, 0, 0],
        [-4, -1, 3],
        [4, -1, -3],
        [-4, 1, -2],
        [4, 1, 2],
        [-5, -1, 3],
        [5, -1, -3],
        [-5, 1, -2],
        [5, 1, 2],
        [-6, 2, 2],
        [-6, -2, -2],
        [6, -2, 2],
        [6, 2, -2],
    ];
    let posed = about(rt.alloc(), true, &[], &[], &Query::Split)?;
    assert!(rt; are(&posed, 2, fixed.as_slice(), &[[6, 0, 0]]));
    Ok(())
}

// Stuck reads no gates: the `and` of each cube begins with the true literal, and a place X is left
// out.
#[test]
fn stuck_reads_cubes_alone(rt: HostRuntime) -> Result<(), Fail> {
    let fixed = [
        [-3, 0, 0],
        [-4, -3, 0],
        [-4, 1, 0],
        [4, 3, -1],
        [-5, 4, 0],
        [-5, -2, 0],
        [5, -4, 2],
        [-6, -3, 0],
        [-6, 2, 0],
        [6, 3, -2],
    ];
    let posed = about(
        rt.alloc(),
        false,
        &[[One, Zero]],
        &[[Unknown, One]],
        &Query::Stuck,
    )?;
    assert!(rt; are(&posed, 2, fixed.as_slice(), &[[5, 0, 0], [-6, 0, 0]]));
    Ok(())
}
