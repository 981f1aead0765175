// Prints flat designs and netlists, one fact a line.
use crate::printing::shown;
use rst_flow::Net;
use rst_net::{Driver, Flat, Process, Signal, Slice, TypedSet};
use std::io;

fn name_of(signals: &[Signal], signal: u32) -> &str {
    match signals.get(signal as usize) {
        Some(signal) => shown(signal.name.as_slice()),
        None => "?",
    }
}

fn sign_of(signed: bool) -> &'static str {
    if signed { "signed" } else { "unsigned" }
}

fn print_signal<R: Print>(rt: &R, signal: &Signal) -> io::Result<()> {
    let shape = signal.shape;
    let kind = if shape.ranged { "vector" } else { "scalar" };
    let sign = sign_of(shape.signed);
    println!(rt;
        "signal {} {} {} {sign} {kind} {:?}",
        shown(signal.name.as_slice()),
        shape.width,
        shape.low,
        signal.role
    )
}

fn print_slice<R: Print>(rt: &R, signals: &[Signal], slice: Slice) -> io::Result<()> {
    print!(rt;
        " {}[{}+{}]",
        name_of(signals, slice.signal),
        slice.low,
        slice.width
    )
}

fn print_set<R: Print>(rt: &R, signals: &[Signal], set: &TypedSet) -> io::Result<()> {
    print!(rt; "assign")?;
    for slice in &set.target {
        print_slice(rt, signals, *slice)?;
    }
    println!(rt; " = {} {}", set.value.width, sign_of(set.value.signed))
}

fn print_block<R: Print>(rt: &R, signals: &[Signal], process: &Process) -> io::Result<()> {
    print!(rt;
        "block {} {} on",
        shown(process.path.as_slice()),
        process.item
    )?;
    match &process.listens {
        None => print!(rt; " *")?,
        Some(names) => {
            for signal in names {
                print!(rt; " {}", name_of(signals, *signal))?;
            }
        }
    }
    println!(rt; "")
}

fn print_clocked<R: Print>(rt: &R, signals: &[Signal], process: &Process) -> io::Result<()> {
    print!(rt;
        "clocked {} {} reset",
        shown(process.path.as_slice()),
        process.item
    )?;
    match process.reset {
        None => println!(rt; " none"),
        Some(reset) => {
            let level = if reset.level { 1 } else { 0 };
            println!(rt; " {} {level}", name_of(signals, reset.signal))
        }
    }
}

fn print_units<R: Print>(
    rt: &R,
    signals: &[Signal],
    units: &[Driver],
    clocked: &[Process],
) -> io::Result<()> {
    for unit in units {
        match unit {
            Driver::Assign(set) => print_set(rt, signals, set)?,
            Driver::Process(process) => print_block(rt, signals, process)?,
        }
    }
    for process in clocked {
        print_clocked(rt, signals, process)?;
    }
    Ok(())
}

/// Prints a flat design.
pub(crate) fn print_flat<R: Print>(rt: &R, flat: &Flat) -> io::Result<()> {
    for signal in &flat.signals {
        print_signal(rt, signal)?;
    }
    print_units(rt, &flat.signals, &flat.units, &flat.clocked)?;
    print!(rt; "outputs")?;
    for output in &flat.outputs {
        print!(rt; " {}", name_of(&flat.signals, *output))?;
    }
    println!(rt; "")
}

/// Prints a netlist's units in their order, its clocked blocks and its weight.
pub(crate) fn print_net<R: Print>(rt: &R, net: &Net, weight: u64) -> io::Result<()> {
    print_units(rt, &net.signals, &net.units, &net.clocked)?;
    println!(rt; "weight {weight}")
}
