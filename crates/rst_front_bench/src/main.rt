//! A driver for cases, comparisons and measurements of the front end: it prints what texts, designs and
//! scripts are read as, what gates a design has and what they do. The first word says which.
//!
//! It is no part of the tool that is shipped.
#![tactic(auto)]

mod cycles;
mod facts;
mod files;
mod flats;
mod gates;
mod lexing;
mod nets;
mod printing;
mod scripts;
mod texts;

use std::rt::Files;
use std::{env, io};

// How often a text is read or lexed to be timed.
const TIMES: u32 = 64;

fn print_usage<R: Print>(rt: &R) -> io::Result<()> {
    println!(rt;
        "usage: rst_front_bench (elaborate | count | flow | order | gates) TOP CLOCK FILE.. | cycles CYCLES TOP CLOCK FILE.. | time READS TIMES TOP CLOCK FILE.. | scripts PORTS SCRIPT | (texts | constants | parse | read | lex) FILE"
    )
}

// What is asked of a file.
fn answer_file<R: Files + Print + AllocGlobal>(
    rt: &R,
    command: &str,
    file: &str,
) -> io::Result<()> {
    match command {
        "texts" => texts::parse_lines(rt, file),
        "constants" => texts::work_out_lines(rt, file),
        "parse" => texts::parse_file(rt, file),
        "read" => lexing::read_file(rt, file, TIMES),
        "lex" => lexing::lex_file(rt, file, TIMES),
        _ => print_usage(rt),
    }
}

// What is asked of the design of these files below the top.
fn answer_design<R: Files + Print + AllocGlobal>(
    rt: &R,
    command: &str,
    top: &str,
    clock: &str,
    files: &[String],
) -> io::Result<()> {
    match command {
        "elaborate" => flats::elaborate(rt, top, clock, files),
        "count" => flats::count(rt, top, clock, files),
        "flow" => nets::flow(rt, top, clock, files),
        "order" => nets::order(rt, top, clock, files),
        "gates" => gates::gates(rt, top, clock, files),
        _ => print_usage(rt),
    }
}

fn main(rt: HostRuntime) -> io::Result<()> {
    let mut words = Vec::new(rt.alloc());
    for word in env::args(&rt)?.skip(1) {
        words.push(word)?;
    }
    match words.as_slice() {
        [command, file] => answer_file(&rt, command.as_str(), file.as_str()),
        [command, ports, script] if command.as_str() == "scripts" => {
            scripts::print_answer(&rt, ports.as_str(), script.as_str())
        }
        [command, table, top, clock, files @ ..] if command.as_str() == "cycles" => {
            cycles::cycles(&rt, table.as_str(), top.as_str(), clock.as_str(), files)
        }
        [command, reads, times, top, clock, files @ ..] if command.as_str() == "time" => {
            let reads = reads.as_str().parse().unwrap_or(1);
            let times = times.as_str().parse().unwrap_or(1);
            gates::time(&rt, reads, times, top.as_str(), clock.as_str(), files)
        }
        [command, top, clock, files @ ..] => {
            answer_design(&rt, command.as_str(), top.as_str(), clock.as_str(), files)
        }
        _ => print_usage(&rt),
    }
}
