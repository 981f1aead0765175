// What the solver answers, and that the checker confirms its logs.
ghost use Rattle.std.specs.Prelude.{◌<◌, ◌^◌, unsigned_abs};

use rst_check::refutes;
use rst_clause::{Clause, Clauses, Lit, Log};
use rst_outside::NoMemory;
use rst_query_text::{Posing, read};
use rst_solve::{Answer, solve};
use rst_value::Tern;
use std::alloc::Global;
use std::test::Fail;

// Two free bits that have to differ, and both to be true as well where that is asked.
fn two_bits(alloc: Global, both: bool) -> Result<Clauses, NoMemory> {
    if both {
        read(alloc, b"free 2\nxor 1 2\nand 1 2\nrequire 4\nrequire 5\n")
    } else {
        read(alloc, b"free 2\nxor 1 2\nrequire 4\n")
    }
}

// The literal of the free bit, from 0.
fn literal(bit: u32) -> Lit
    ensures { unsigned_abs result < 2 ^ 31 }
{
    if bit < 1_000_000 {
        Lit::of_variable(bit + 1)
    } else {
        Lit::of_variable(1)
    }
}

// The log without its last line.
fn cut(alloc: Global, log: &Log) -> Result<Log, NoMemory> {
    let mut lines = Log::new(alloc);
    for i in 0..log.len().saturating_sub(1) {
        let line = log.get(i);
        lines.push(Clause::from_slice(alloc, line.as_slice())?)?;
    }
    Ok(lines)
}

#[test]
fn a_refutation_passes_whole_and_not_cut(rt: HostRuntime) -> Result<(), Fail> {
    let alloc = rt.alloc();
    let clauses = two_bits(alloc, true)?;
    match &solve(alloc, &clauses, 4)? {
        Answer::Refuted { log, paths } => {
            assert_eq!(rt; paths.len(), 1);
            let path = paths[0].as_slice();
            assert_eq!(rt; path, [Tern::Unknown, Tern::Unknown].as_slice());
            assert!(rt; refutes(alloc, &clauses, log)?);
            assert!(rt; !refutes(alloc, &clauses, &cut(alloc, log)?)?);
        }
        _ => assert!(rt; false, "no refutation"),
    }
    Ok(())
}

#[test]
fn no_path_allowed_is_spent(rt: HostRuntime) -> Result<(), Fail> {
    let clauses = two_bits(rt.alloc(), true)?;
    match &solve(rt.alloc(), &clauses, 0)? {
        Answer::Spent { paths } => assert_eq!(rt; paths.len(), 0),
        _ => assert!(rt; false, "not spent"),
    }
    Ok(())
}

#[test]
fn models_solve(rt: HostRuntime) -> Result<(), Fail> {
    let clauses = two_bits(rt.alloc(), false)?;
    match &solve(rt.alloc(), &clauses, 100)? {
        Answer::Model { bits, paths: _ } => {
            assert_eq!(rt; bits.len(), 2);
            assert!(rt; bits.get(0) != bits.get(1));
        }
        _ => assert!(rt; false, "no model"),
    }
    Ok(())
}

// Free bits of which one has to be true.
fn one_of_all(alloc: Global, free: u32) -> Result<Clauses, NoMemory> {
    let mut posing = Posing::new(alloc, free)?;
    let mut lits = Vec::new(alloc);
    for i in 0..free {
        lits.push(literal(i))?;
    }
    posing.require(&lits)?;
    Ok(posing.finish())
}

// Whether a bit of the model is true, or None where there is no model.
fn has_true_bit(alloc: Global, clauses: &Clauses) -> Result<Option<bool>, NoMemory> {
    match solve(alloc, clauses, 20_000)? {
        Answer::Model { bits, paths: _ } => {
            let mut any = false;
            for bit in bits.as_slice() {
                any = any || *bit;
            }
            Ok(Some(any))
        }
        _ => Ok(None),
    }
}

#[test]
fn one_clause_of_many_bits_has_a_model(rt: HostRuntime) -> Result<(), Fail> {
    for free in [512u32, 2_048, 33_792] {
        let clauses = one_of_all(rt.alloc(), free)?;
        assert_eq!(rt;
            has_true_bit(rt.alloc(), &clauses)?,
            Some(true),
            "{free} bits"
        );
    }
    Ok(())
}

/// Holes for the pigeons below, of which there is one more.
const HOLES: u32 = 6;

// Seven pigeons that sit alone in six holes: the free bit 6p + h is true where p sits in h.
fn pigeons(alloc: Global) -> Result<Clauses, NoMemory> {
    let mut posing = Posing::new(alloc, (HOLES + 1) * HOLES)?;
    for pigeon in 0..HOLES + 1 {
        let mut somewhere: Vec<Lit> = Vec::new(alloc);
        for hole in 0..HOLES {
            let here = literal(HOLES.wrapping_mul(pigeon).wrapping_add(hole));
            somewhere.push(here)?;
            for other in 0..pigeon {
                let there = literal(HOLES.wrapping_mul(other).wrapping_add(hole));
                posing.require(&[here.opposite(), there.opposite()])?;
            }
        }
        posing.require(&somewhere)?;
    }
    Ok(posing.finish())
}

// Whether the two paths know a place differently.
fn are_apart(p: &[Tern], q: &[Tern]) -> bool {
    for (a, b) in p.iter().zip(q.iter()) {
        if matches!((a, b), (Tern::Zero, Tern::One) | (Tern::One, Tern::Zero)) {
            return true;
        }
    }
    false
}

#[test]
fn few_paths_allowed_are_spent_and_disjoint(rt: HostRuntime) -> Result<(), Fail> {
    let clauses = pigeons(rt.alloc())?;
    match &solve(rt.alloc(), &clauses, 3)? {
        Answer::Spent { paths } => {
            assert_eq!(rt; paths.len(), 3);
            for i in 0..paths.len() {
                for j in 0..i {
                    assert!(rt; are_apart(paths[i].as_slice(), paths[j].as_slice()));
                }
            }
        }
        _ => assert!(rt; false, "not spent"),
    }
    match &solve(rt.alloc(), &clauses, 20_000)? {
        Answer::Refuted { log, paths } => {
            assert_eq!(rt; paths.len(), 1);
            assert!(rt; refutes(rt.alloc(), &clauses, log)?);
        }
        _ => assert!(rt; false, "not refuted"),
    }
    Ok(())
}
