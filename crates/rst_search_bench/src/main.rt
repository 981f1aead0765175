//! A driver for measurements of search: it solves queries and clauses, poses queries about guarded data and
//! about a netlist beside itself, widens hops of that netlist or runs it, and prints what it counted. The
//! first word says which; `docs/FORMATS.md` says how a query is written. The gate compares what `rows` prints.
//!
//! It is no part of the tool that is shipped.
#![tactic(auto)]

mod clauses;
mod dimacs;
mod finding;
mod guarded;
mod landing;
mod netlist;
mod refining;
mod running;
mod solving;
mod widening;

use std::rt::{Clock, Files};
use std::{env, io};

// How often a query about guarded data is solved, or its log replayed.
const TIMES: u32 = 20;

// The word at the place, empty where there is none.
fn word(words: &[String], at: usize) -> &str {
    match words.get(at) {
        Some(word) => word.as_str(),
        None => "",
    }
}

// The number at the place, or the other one where there is none.
fn number(words: &[String], at: usize, otherwise: u32) -> u32 {
    word(words, at).parse().unwrap_or(otherwise)
}

fn print_usage<R: Print>(rt: &R) -> io::Result<()> {
    println!(rt;
        "usage: rst_search_bench solve QUERY [PATHS] | dimacs QUERY | find CNF [CONFLICTS [LOG]] | (refine | solve-guarded | replay-guarded | dimacs-guarded) BITS | (land | solve-land) CYCLES | widen GATES TIMES | two | three | rows"
    )
}

// What queries about guarded data of some numbers of bits take, and how large a query about a netlist is.
fn print_rows<R: Print + AllocGlobal>(rt: &R) -> io::Result<()> {
    for bits in [8, 16, 32, 64, 128] {
        refining::print_refined(rt, bits)?;
    }
    landing::print_land(rt, 2)
}

// What is asked of a file.
fn answer_file<R: Clock + Files + Print + AllocGlobal>(rt: &R, words: &[String]) -> io::Result<()> {
    let file = word(words, 1);
    let most = number(words, 2, 20_000);
    match word(words, 0) {
        "solve" => solving::print_solved(rt, file, most),
        "dimacs" => solving::print_dimacs(rt, file),
        "find" => finding::print_found(rt, file, most as u64, word(words, 3)),
        _ => print_usage(rt),
    }
}

// What is asked of guarded data of so many bits.
fn answer_guarded<R: Print + AllocGlobal>(rt: &R, words: &[String]) -> io::Result<()> {
    let bits = number(words, 1, 8);
    match word(words, 0) {
        "refine" => refining::print_refined(rt, bits),
        "solve-guarded" => refining::print_solved(rt, bits, TIMES),
        "replay-guarded" => refining::print_replayed(rt, bits, TIMES),
        _ => refining::print_dimacs(rt, bits),
    }
}

// What is asked of the netlist.
fn answer_netlist<R: Print + AllocGlobal>(rt: &R, words: &[String]) -> io::Result<()> {
    let count = number(words, 1, 1);
    match word(words, 0) {
        "land" => landing::print_land(rt, count),
        "solve-land" => landing::print_solved(rt, count),
        "widen" => widening::print_widened(rt, count, number(words, 2, 1)),
        "two" => running::two_values(rt),
        _ => running::three_values(rt),
    }
}

fn main(rt: HostRuntime) -> io::Result<()> {
    let mut words = Vec::new(rt.alloc());
    for word in env::args(&rt)?.skip(1) {
        words.push(word)?;
    }
    let words = words.as_slice();
    match word(words, 0) {
        "rows" => print_rows(&rt),
        "refine" | "solve-guarded" | "replay-guarded" | "dimacs-guarded" => answer_guarded(
            &rt, words,
        ),
        "land" | "solve-land" | "widen" | "two" | "three" => answer_netlist(&rt, words),
        _ => answer_file(&rt, words),
    }
}
