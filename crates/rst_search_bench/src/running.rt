// Runs of a netlist of 16,384 gates and one register over 128 cycles.
ghost use Rattle.std.specs.Prelude.{◌≡◌, ◌^◌, length, IfOk};
ghost use Rattle.std.specs.List.{AllByRecursion};

use crate::netlist::{GATES, netlist};
use rst_gate::{Bits, Cube, Sequence};
use rst_outside::NoMemory;
use rst_sim::{tern_run, two_run};
use rst_value::Tern;
use std::alloc::Global;
use std::io;

const CYCLES: u32 = 128;

const RUNS: u32 = 20;

fn input(alloc: Global, bit: bool) -> Result<Bits, NoMemory>
    ensures { IfOk result (λ bits. length bits ≡ 1) }
{
    Bits::from_slice(alloc, &[bit])
}

fn word(alloc: Global) -> Result<Sequence, NoMemory>
    ensures { IfOk result (λ word. AllByRecursion (λ input. length input ≡ 1) word) }
{
    let mut word = Sequence::new(alloc);
    for cycle in 0..CYCLES {
        word.push(input(alloc, cycle % 2 == 0)?)?;
    }
    Ok(word)
}

// How many gate evaluations the runs make in all.
fn evaluations() -> u64 {
    u64::from(GATES) * u64::from(CYCLES) * u64::from(RUNS)
}

fn run_two(alloc: Global) -> Result<bool, NoMemory> {
    let gates = netlist(alloc, GATES, 1)?;
    let word = word(alloc)?;
    let mut any = false;
    for _ in 0..RUNS {
        let trace = two_run(alloc, &gates, &input(alloc, true)?, &word)?;
        any = any || trace.outs.len() == 1;
    }
    Ok(any)
}

fn run_three(alloc: Global) -> Result<bool, NoMemory> {
    let gates = netlist(alloc, GATES, 1)?;
    let word = word(alloc)?;
    let mut any = false;
    for _ in 0..RUNS {
        let start = Cube::from_slice(alloc, &[Tern::Unknown])?;
        let trace = tern_run(alloc, &gates, &start, &word)?;
        any = any || trace.states.len() == 1;
    }
    Ok(any)
}

fn print_evaluations<R: Print + AllocGlobal>(
    rt: &R,
    ran: Result<bool, NoMemory>,
) -> io::Result<()> {
    match ran {
        Ok(_) => println!(rt; "evaluations {}", evaluations()),
        Err(NoMemory) => println!(rt; "no memory"),
    }
}

/// Runs the netlist in two values, and prints how many gate evaluations that took.
pub(crate) fn two_values<R: Print + AllocGlobal>(rt: &R) -> io::Result<()> {
    print_evaluations(rt, run_two(rt.alloc()))
}

/// Runs the netlist in three values from an unknown register, and prints the same.
pub(crate) fn three_values<R: Print + AllocGlobal>(rt: &R) -> io::Result<()> {
    print_evaluations(rt, run_three(rt.alloc()))
}
