// What a script reads as, and the pattern that it gives, as lines.
use crate::files::MOST;
use crate::printing::{print_places, shown};
use rst_causes::script_stop;
use rst_gate::Pattern;
use rst_outside::{Name, NoMemory, PortBits};
use rst_reject::Stop;
use rst_script::{Script, ScriptFault, Step, fit_script, read_script};
use std::alloc::Global;
use std::rt::Files;
use std::{fs, io};

fn width_of(text: &[u8]) -> u8 {
    let mut width: u8 = 0;
    for b in text {
        if *b >= b'0' && *b <= b'9' {
            width = width.wrapping_mul(10).wrapping_add(*b - b'0');
        }
    }
    width
}

// The input of a line `NAME WIDTH`.
fn port_of(alloc: Global, line: &[u8]) -> Result<PortBits, NoMemory> {
    let mut parts = line.splitn(2, |b| *b == b' ');
    let name = parts.next().unwrap_or(&[]);
    let width = parts.next().unwrap_or(&[]);
    Ok(PortBits {
        name: Name::new(alloc, name)?,
        width: width_of(width),
    })
}

// The inputs of all lines.
fn ports_of(alloc: Global, text: &[u8]) -> Result<Vec<PortBits>, NoMemory> {
    let mut ports = Vec::new(alloc);
    for line in text.split(|b| *b == b'\n') {
        if !line.is_empty() {
            ports.push(port_of(alloc, line)?)?;
        }
    }
    Ok(ports)
}

fn print_fault<R: Print + AllocGlobal>(rt: &R, fault: ScriptFault) -> io::Result<()> {
    match script_stop(rt.alloc(), 0, fault) {
        Stop::Rejected(reject) => {
            println!(rt; "refused {} {}", reject.code.name(), reject.number)
        }
        Stop::NoMemory => println!(rt; "no memory"),
    }
}

fn print_step<R: Print + AllocGlobal>(rt: &R, step: &Step) -> io::Result<()> {
    let line = step.line;
    let times = step.times;
    print!(rt; "step line {line} times {times}")?;
    for setting in step.values.as_slice() {
        let name = shown(setting.name.as_slice());
        match setting.value {
            None => print!(rt; " {name}=*")?,
            Some(value) => print!(rt; " {name}={value}")?,
        }
    }
    println!(rt; "")
}

fn print_script<R: Print + AllocGlobal>(rt: &R, script: &Script) -> io::Result<()> {
    let version = script.version;
    println!(rt; "version {version}")?;
    match &script.clock {
        None => println!(rt; "noclock")?,
        Some(name) => {
            let name = shown(name.as_slice());
            println!(rt; "clock {name}")?;
        }
    }
    let budget = script.budget;
    println!(rt; "budget {budget}")?;
    let bound = script.bound;
    println!(rt; "bound {bound}")?;
    let kind = if script.json { "json" } else { "text" };
    println!(rt; "report {kind}")?;
    for step in script.steps.as_slice() {
        print_step(rt, step)?;
    }
    Ok(())
}

fn print_pattern<R: Print + AllocGlobal>(rt: &R, pattern: &Pattern) -> io::Result<()> {
    let cycles = pattern.len();
    println!(rt; "cycles {cycles}")?;
    for cube in pattern.as_slice() {
        print!(rt; "cycle ")?;
        print_places(rt, cube.as_slice(), "-")?;
        println!(rt; "")?;
    }
    Ok(())
}

/// Prints what the script of a file reads as, and the pattern that it gives the inputs of another.
pub(crate) fn print_answer<R: Files + Print + AllocGlobal>(
    rt: &R,
    ports: &str,
    script: &str,
) -> io::Result<()> {
    let listed = fs::read(rt, ports)?;
    let text = fs::read(rt, script)?;
    if text.len() > MOST {
        return println!(rt; "too long");
    }
    let Ok(ports) = ports_of(rt.alloc(), &listed) else {
        return println!(rt; "no memory");
    };
    match read_script(rt.alloc(), &text) {
        Err(fault) => print_fault(rt, fault),
        Ok(script) => {
            print_script(rt, &script)?;
            match fit_script(rt.alloc(), &script, ports.as_slice()) {
                Err(fault) => print_fault(rt, fault),
                Ok(pattern) => print_pattern(rt, &pattern),
            }
        }
    }
}
