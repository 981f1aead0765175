// The queries about guarded data, posed and answered one after another.
use crate::clauses::print_clauses;
use crate::guarded::{Blocked, all_blocked, blocked_by, land, split};
use rst_check::refutes;
use rst_clause::Clauses;
use rst_outside::NoMemory;
use rst_solve::{Answer, solve};
use std::alloc::Global;
use std::io;

// The paths that a query is allowed.
const MOST_PATHS: u32 = 20_000;

/// What the queries took.
#[derive(Clone, Copy)]
struct Counts {
    /// Paths over all queries, and sets of pairs that were blocked.
    entries: usize,
    /// Paths of the query that took the most of them.
    most: usize,
    /// Sets of pairs that were blocked.
    blocked: usize,
    /// Whether both queries were refuted in the end, and the checker confirmed their logs.
    confirmed: bool,
}

impl Counts {
    fn add(&mut self, paths: usize) {
        self.entries = self.entries.saturating_add(paths);
        self.most = self.most.max(paths);
    }
}

/// What one more query says.
#[derive(Clone, Copy)]
enum Step {
    /// A set of pairs to block.
    Blocks(Blocked),
    /// The query is refuted; whether the checker confirms that.
    Refuted(bool),
    /// Neither.
    Neither,
}

// What the answer to a query says.
fn step_of(
    alloc: Global,
    bits: u32,
    query: &Clauses,
    answer: &Answer,
    counts: &mut Counts,
) -> Result<Step, NoMemory> {
    match answer {
        Answer::Model { bits: model, paths } => {
            counts.add(paths.len().saturating_add(1));
            match blocked_by(bits, model.as_slice()) {
                Some(cube) => Ok(Step::Blocks(cube)),
                None => Ok(Step::Neither),
            }
        }
        Answer::Refuted { log, paths } => {
            counts.add(paths.len());
            Ok(Step::Refuted(refutes(alloc, query, log)?))
        }
        Answer::Spent { paths: _ } => Ok(Step::Neither),
    }
}

// Solves a query.
fn ask(alloc: Global, bits: u32, query: &Clauses, counts: &mut Counts) -> Result<Step, NoMemory> {
    let answer = solve(alloc, query, MOST_PATHS)?;
    step_of(alloc, bits, query, &answer, counts)
}

// Poses the query `split` with the pairs that are blocked so far.
fn ask_split(
    alloc: Global,
    bits: u32,
    blocked: &[Blocked],
    counts: &mut Counts,
) -> Result<Step, NoMemory> {
    let query = split(alloc, bits, blocked)?;
    ask(alloc, bits, &query, counts)
}

// Poses the query `land`. Whether it is refuted, and the checker confirms that.
fn never_lands(
    alloc: Global,
    bits: u32,
    blocked: &[Blocked],
    counts: &mut Counts,
) -> Result<bool, NoMemory> {
    let query = land(alloc, bits, blocked)?;
    let step = ask(alloc, bits, &query, counts)?;
    Ok(matches!(step, Step::Refuted(true)))
}

// Poses the query `split` with more and more blocked pairs until it is refuted, and then the
// query `land`.
fn refine(alloc: Global, bits: u32) -> Result<Counts, NoMemory> {
    let mut blocked: Vec<Blocked> = Vec::new(alloc);
    let mut counts = Counts {
        entries: 0,
        most: 0,
        blocked: 0,
        confirmed: false,
    };
    for _ in 0..MOST_PATHS {
        match ask_split(alloc, bits, &blocked, &mut counts)? {
            Step::Blocks(cube) => blocked.push(cube)?,
            Step::Refuted(passes) => {
                counts.blocked = blocked.len();
                counts.confirmed = never_lands(alloc, bits, &blocked, &mut counts)? && passes;
                return Ok(counts);
            }
            Step::Neither => return Ok(counts),
        }
    }
    Ok(counts)
}

// The last query `split`, which is refuted.
fn last_query(alloc: Global, bits: u32) -> Result<Clauses, NoMemory> {
    let blocked = all_blocked(alloc, bits)?;
    split(alloc, bits, &blocked)
}

// The paths of a refutation, none where there is no refutation.
fn paths_of(answer: &Answer) -> usize {
    match answer {
        Answer::Refuted { log: _, paths } => paths.len(),
        _ => 0,
    }
}

// Solves the last query so many times. The paths that it took each time.
fn solve_last(alloc: Global, bits: u32, times: u32) -> Result<usize, NoMemory> {
    let query = last_query(alloc, bits)?;
    let mut taken = 0usize;
    for _ in 0..times {
        taken = paths_of(&solve(alloc, &query, MOST_PATHS)?);
    }
    Ok(taken)
}

// Replays the log of an answer so many times. The lines that it has where it refutes, and else 0.
fn replay(alloc: Global, query: &Clauses, answer: &Answer, times: u32) -> Result<usize, NoMemory> {
    let mut lines = 0usize;
    if let Answer::Refuted { log, paths: _ } = answer {
        for _ in 0..times {
            let refuted = refutes(alloc, query, log)?;
            lines = if refuted { log.len() } else { 0 };
        }
    }
    Ok(lines)
}

// Solves the last query once and replays its log so many times. The lines that the log has.
fn replay_last(alloc: Global, bits: u32, times: u32) -> Result<usize, NoMemory> {
    let query = last_query(alloc, bits)?;
    let answer = solve(alloc, &query, MOST_PATHS)?;
    replay(alloc, &query, &answer, times)
}

/// Prints what the queries take at so many data bits.
pub(crate) fn print_refined<R: Print + AllocGlobal>(rt: &R, bits: u32) -> io::Result<()> {
    match refine(rt.alloc(), bits) {
        Ok(counts) => {
            let Counts {
                entries,
                most,
                blocked,
                confirmed,
            } = counts;
            println!(rt; "entries {entries} most {most} blocked {blocked} confirmed {confirmed}")
        }
        Err(NoMemory) => println!(rt; "no memory"),
    }
}

/// Solves the last query so many times, and prints the paths that it takes.
pub(crate) fn print_solved<R: Print + AllocGlobal>(
    rt: &R,
    bits: u32,
    times: u32,
) -> io::Result<()> {
    match solve_last(rt.alloc(), bits, times) {
        Ok(paths) => println!(rt; "paths {paths}"),
        Err(NoMemory) => println!(rt; "no memory"),
    }
}

/// Replays the log of the last query so many times, and prints its lines.
pub(crate) fn print_replayed<R: Print + AllocGlobal>(
    rt: &R,
    bits: u32,
    times: u32,
) -> io::Result<()> {
    match replay_last(rt.alloc(), bits, times) {
        Ok(lines) => println!(rt; "lines {lines}"),
        Err(NoMemory) => println!(rt; "no memory"),
    }
}

/// Prints the clauses of the last query in the DIMACS format.
pub(crate) fn print_dimacs<R: Print + AllocGlobal>(rt: &R, bits: u32) -> io::Result<()> {
    match last_query(rt.alloc(), bits) {
        Ok(query) => print_clauses(rt, &query),
        Err(NoMemory) => println!(rt; "no memory"),
    }
}
