// Solves a query, replays its log, and prints what that took.
use crate::clauses::print_clauses;
use rst_check::refutes;
use rst_clause::Clauses;
use rst_outside::NoMemory;
use rst_query_text::read;
use rst_solve::{Answer, solve};
use std::rt::{Clock, Files};
use std::time::Instant;
use std::{fs, io};

// The query of the file.
fn query<R: Files + AllocGlobal>(rt: &R, name: &str) -> io::Result<Option<Clauses>> {
    let text = fs::read(rt, name)?;
    match read(rt.alloc(), &text) {
        Ok(clauses) => Ok(Some(clauses)),
        Err(NoMemory) => Ok(None),
    }
}

// Prints the answer, and replays a log.
fn print_answer<R: Clock + Print + AllocGlobal>(
    rt: &R,
    clauses: &Clauses,
    answer: &Answer,
    took: u128,
) -> io::Result<()> {
    match answer {
        Answer::Model { bits: _, paths } => {
            println!(rt; "model, {} paths, {took} ms", paths.len())
        }
        Answer::Spent { paths } => println!(rt; "spent, {} paths, {took} ms", paths.len()),
        Answer::Refuted { log, paths } => {
            let begun = Instant::now(rt)?;
            let passes = matches!(refutes(rt.alloc(), clauses, log), Ok(true));
            let replay = begun.elapsed(rt)?.as_millis();
            println!(rt;
                "refuted, {} paths, {took} ms, {} lines, replay {replay} ms, passes {passes}",
                paths.len(),
                log.len()
            )
        }
    }
}

/// Solves the query of the file with at most so many paths, and prints the answer, its paths and
/// milliseconds, and of a refutation the lines of the log and the milliseconds of a replay.
pub(crate) fn print_solved<R: Clock + Files + Print + AllocGlobal>(
    rt: &R,
    name: &str,
    most: u32,
) -> io::Result<()> {
    let Some(clauses) = query(rt, name)? else {
        return println!(rt; "no memory");
    };
    println!(rt;
        "{} free bits, {} variables, {} clauses",
        clauses.free,
        clauses.vars,
        clauses.fixed.len().saturating_add(clauses.required.len())
    )?;
    let begun = Instant::now(rt)?;
    let answer = solve(rt.alloc(), &clauses, most);
    let took = begun.elapsed(rt)?.as_millis();
    match &answer {
        Ok(answer) => print_answer(rt, &clauses, answer, took),
        Err(NoMemory) => println!(rt; "no memory"),
    }
}

/// Prints the clauses of the query in the DIMACS format.
pub(crate) fn print_dimacs<R: Files + Print + AllocGlobal>(rt: &R, name: &str) -> io::Result<()> {
    match query(rt, name)? {
        Some(clauses) => print_clauses(rt, &clauses),
        None => println!(rt; "no memory"),
    }
}
