// Runs the conflict-driven solver alone.
use crate::dimacs::{Formula, read};
use rst_cdcl::{Log, Outcome, Solver};
use std::alloc::{AllocError, Global};
use std::io::{BufWriter, Write};
use std::rt::Files;
use std::{fs, io};

// The clause at the place.
fn clause(f: &Formula, i: usize) -> &[i32] {
    let start = if i == 0 {
        0
    } else {
        f.ends.get(i - 1).copied().unwrap_or(0)
    };
    let end = f.ends.get(i).copied().unwrap_or(0);
    if start <= end && end <= f.lits.len() {
        &f.lits[start..end]
    } else {
        &[]
    }
}

// A solver with the clauses.
fn load(alloc: Global, f: &Formula) -> Result<Solver, AllocError> {
    let mut solver = Solver::new(alloc, f.vars, 0)?;
    for i in 0..f.ends.len() {
        solver.expect(clause(f, i));
    }
    solver.make_room()?;
    for i in 0..f.ends.len() {
        solver.add(clause(f, i))?;
    }
    Ok(solver)
}

// Whether the literal holds.
fn holds(bits: &[bool], lit: i32) -> bool {
    let at = lit.unsigned_abs().wrapping_sub(1) as usize;
    bits.get(at).copied().unwrap_or(false) == (lit > 0)
}

// Whether each clause has a literal that holds.
fn solves(f: &Formula, bits: &[bool]) -> bool {
    for i in 0..f.ends.len() {
        let mut any = false;
        for lit in clause(f, i) {
            any = any || holds(bits, *lit);
        }
        if !any {
            return false;
        }
    }
    true
}

// Whether the bits solve the clauses before the place, and the assumptions there.
fn solves_before(f: &Formula, bits: &[bool], place: usize) -> bool {
    for i in 0..place {
        let mut any = f.asks.get(i).copied().unwrap_or(false);
        for lit in clause(f, i) {
            any = any || holds(bits, *lit);
        }
        if !any {
            return false;
        }
    }
    for lit in clause(f, place) {
        if !holds(bits, *lit) {
            return false;
        }
    }
    true
}

// Solves under the assumptions at the place, and prints what that found.
fn ask<R: Print>(rt: &R, f: &Formula, solver: &mut Solver, place: usize) -> io::Result<()> {
    match solver.solve(clause(f, place), 1_000_000)? {
        Outcome::Model(bits) => {
            let right = solves_before(f, &bits, place);
            println!(rt; "MODEL {right}")
        }
        Outcome::Refuted(core) => println!(rt; "REFUTED {core:?}"),
        Outcome::GaveUp => println!(rt; "GAVE UP"),
    }
}

// Adds the clauses one after another, and solves where that is asked.
fn ask_all<R: Print + AllocGlobal>(rt: &R, f: &Formula) -> io::Result<()> {
    let mut solver = Solver::new(rt.alloc(), f.vars, 0)?;
    for i in 0..f.ends.len() {
        if f.asks.get(i).copied().unwrap_or(false) {
            ask(rt, f, &mut solver, i)?;
        } else {
            solver.add(clause(f, i))?;
        }
    }
    Ok(())
}

// Writes one clause as numbers.
fn write_clause<W: Write>(out: &mut W, lits: &[i32]) -> io::Result<()> {
    for number in lits {
        write!(out, "{number} ")?;
    }
    writeln!(out, "0")
}

// Writes the learnt clauses to the file.
fn write_log<R: Files + AllocGlobal>(rt: &R, name: &str, log: &Log) -> io::Result<()> {
    let mut out = BufWriter::new(rt.alloc(), fs::create(rt, name)?)?;
    for i in 0..log.len() {
        write_clause(&mut out, log.get(i))?;
    }
    out.flush()
}

// The word for the answer.
fn answer(f: &Formula, outcome: &Outcome) -> &'static str {
    match outcome {
        Outcome::Model(bits) if solves(f, bits) => "MODEL checked",
        Outcome::Model(_) => "MODEL wrong",
        Outcome::Refuted(_) => "REFUTED",
        Outcome::GaveUp => "GAVE UP",
    }
}

// The clauses of the file.
fn read_file<R: Files + AllocGlobal>(rt: &R, name: &str) -> io::Result<Formula> {
    let text = fs::read(rt, name)?;
    Ok(read(rt.alloc(), &text)?)
}

/// Searches for a model of the clauses of a DIMACS file with at most so many conflicts, prints what
/// was found, and writes the learnt clauses to a file where one is named. A file with lines that
/// begin with `a` is solved at each of these, under the assumptions that it names and over the
/// clauses before it.
pub(crate) fn print_found<R: Files + Print + AllocGlobal>(
    rt: &R,
    name: &str,
    conflicts: u64,
    log: &str,
) -> io::Result<()> {
    let f = read_file(rt, name)?;
    if f.asks.contains(&true) {
        return ask_all(rt, &f);
    }
    let mut solver = load(rt.alloc(), &f)?;
    let outcome = solver.solve(&[], conflicts)?;
    let word = answer(&f, &outcome);
    println!(rt;
        "{word} conflicts {} decisions {} log {}",
        solver.conflicts(),
        solver.decisions(),
        solver.log().len()
    )?;
    if !log.is_empty() {
        write_log(rt, log, solver.log())?;
    }
    Ok(())
}
