// What the log of a conflict-driven solver proposes: its lines, and for each of them the clauses to look at first.
ghost use Rattle.std.specs.Prelude.{IfOk, IfSome};
ghost use Rattle.rst_solve.specs.Answers.{EndsEmptyAlone};

use rst_cdcl::Hint;
use rst_check::Hints;
use rst_clause::{Clause, Clauses, Lit, Log};
use rst_outside::NoMemory;
use std::alloc::Global;

/// The most literals of a line that is found by its literals.
const SHORT: usize = 3;

// The clause of the numbers; 0 is left out.
fn clause_of(alloc: Global, numbers: &[i32]) -> Result<Clause, NoMemory> {
    let mut clause = Clause::new(alloc);
    for number in numbers {
        if *number != 0 {
            clause.push(Lit::new(*number))?;
        }
    }
    Ok(clause)
}

/// The lines up to the first that is empty, if one is.
pub fn log_of(alloc: Global, found: &rst_cdcl::Log) -> Result<Option<Log>, NoMemory>
    ensures { IfOk result (λ log. IfSome log (λ lines. EndsEmptyAlone lines)) }
{
    let mut log = Log::new(alloc);
    for i in 0..found.len() {
        let clause = clause_of(alloc, found.get(i))?;
        let ends = clause.len() == 0;
        log.push(clause)?;
        if ends {
            return Ok(Some(log));
        }
    }
    Ok(None)
}

// A number as 32 bits, or the greatest of those where it does not fit.
fn narrow(number: usize) -> u32 {
    if number < 0xFFFF_FFFF {
        number as u32
    } else {
        0xFFFF_FFFF
    }
}

fn word(cells: &[u32], at: u32) -> u32 {
    let i = at as usize;
    if i < cells.len() { cells[i] } else { 0 }
}

fn set_word(cells: &mut [u32], at: u32, to: u32) {
    let i = at as usize;
    if i < cells.len() {
        cells[i] = to;
    }
}

// The clauses of a query and the short lines of a log, by their greatest variables. A clause goes
// by its number: those of the query come first.
#[derive(Drop)]
struct Index {
    // by variable, the place behind its clauses' numbers
    ends: Vec<u32>,
    numbers: Vec<u32>,
}

fn greatest(clause: &[Lit]) -> u32 {
    let mut most = 0u32;
    for lit in clause {
        most = most.max(lit.variable());
    }
    most
}

// The clause with the number, if the index has it.
fn clause_at<'a>(clauses: &'a Clauses, log: &'a Log, number: usize) -> &'a [Lit] {
    let fixed = clauses.fixed.len();
    let query = fixed.saturating_add(clauses.required.len());
    if number < fixed {
        return clauses.fixed.get(number);
    }
    if number < query {
        return clauses.required.get(number - fixed);
    }
    if number - query < log.len() {
        let line = log.get(number - query).as_slice();
        if line.len() <= SHORT {
            return line;
        }
    }
    &[]
}

// How many clauses query and log have.
fn count_of(clauses: &Clauses, log: &Log) -> usize {
    let query = clauses.fixed.len().saturating_add(clauses.required.len());
    query.saturating_add(log.len())
}

impl Index {
    // Counts the clauses of each variable, and lays out their numbers.
    fn new(alloc: Global, clauses: &Clauses, log: &Log) -> Result<Index, NoMemory> {
        let count = count_of(clauses, log);
        let slots = (clauses.vars as usize).saturating_add(2);
        let mut ends = vec![in alloc; 0u32; slots]?;
        for number in 0..count {
            let next = greatest(clause_at(clauses, log, number)).saturating_add(1);
            let before = word(&ends, next);
            set_word(&mut ends, next, before.saturating_add(1));
        }
        let mut so_far = 0u32;
        for variable in 0..narrow(slots) {
            so_far = so_far.saturating_add(word(&ends, variable));
            set_word(&mut ends, variable, so_far);
        }
        let mut numbers = vec![in alloc; 0u32; count]?;
        for number in 0..count {
            let variable = greatest(clause_at(clauses, log, number));
            let end = word(&ends, variable);
            set_word(&mut numbers, end, narrow(number));
            set_word(&mut ends, variable, end.saturating_add(1));
        }
        Ok(Index { ends, numbers })
    }

    // The first clause before the number that has all of the literals.
    fn find(&self, clauses: &Clauses, log: &Log, lits: &[i32], before: u32) -> Option<u32> {
        let mut most = 0u32;
        for lit in lits {
            most = most.max(lit.unsigned_abs());
        }
        let start = if most == 0 {
            0
        } else {
            word(&self.ends, most - 1)
        };
        for place in start..word(&self.ends, most) {
            let number = word(&self.numbers, place);
            if number < before && has_all(clause_at(clauses, log, number as usize), lits) {
                return Some(number);
            }
        }
        None
    }
}

fn has(clause: &[Lit], number: i32) -> bool {
    for lit in clause {
        if lit.number() == number {
            return true;
        }
    }
    false
}

fn has_all(clause: &[Lit], lits: &[i32]) -> bool {
    for lit in lits {
        if !has(clause, *lit) {
            return false;
        }
    }
    true
}

/// For each line the clauses that it was derived from. They promise nothing.
pub fn hints_of(
    alloc: Global,
    clauses: &Clauses,
    log: &Log,
    found: &rst_cdcl::Log,
) -> Result<Hints, NoMemory> {
    let query = narrow(clauses.fixed.len().saturating_add(clauses.required.len()));
    let index = Index::new(alloc, clauses, log)?;
    let mut hints = Hints::new(alloc);
    for i in 0..log.len() {
        let before = query.saturating_add(narrow(i));
        for hint in found.hints(i) {
            let number = match *hint {
                Hint::Line(line) => Some(query.saturating_add(line)),
                Hint::Given(number) => Some(number),
                Hint::Two(a, b) => index.find(clauses, log, &[a, b], before),
                Hint::Three(a, b, c) => index.find(clauses, log, &[a, b, c], before),
            };
            if let Some(number) = number {
                hints.push(number)?;
            }
        }
        hints.end()?;
    }
    Ok(hints)
}
