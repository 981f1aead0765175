// What gates do in given cycles.
use crate::files::text_of;
use crate::gates::gates_of;
use crate::printing::{print_bits, print_places};
use rst_gate::Gates;
use rst_sim::{tern_cycle, two_cycle};
use rst_value::Tern;
use std::alloc::Global;
use std::io;
use std::rt::Files;

fn place_of(byte: u8) -> Tern {
    match byte {
        b'0' => Tern::Zero,
        b'1' => Tern::One,
        _ => Tern::Unknown,
    }
}

// The places of a column of a line. Columns stand behind a `=`.
fn column(alloc: Global, line: &[u8], number: usize) -> io::Result<Vec<Tern>> {
    let mut places = Vec::new(alloc);
    let mut seen = 0usize;
    for byte in line {
        if *byte == b'=' {
            seen = seen.saturating_add(1);
        } else if seen == number && *byte != b' ' {
            places.push(place_of(*byte))?;
        }
    }
    Ok(places)
}

fn bits_of(alloc: Global, places: &[Tern]) -> io::Result<Vec<bool>> {
    let mut bits = Vec::new(alloc);
    for place in places {
        bits.push(*place == Tern::One)?;
    }
    Ok(bits)
}

// A cycle of known bits.
fn print_known<R: Print + AllocGlobal>(
    rt: &R,
    gates: &Gates,
    state: &[bool],
    input: &[bool],
) -> io::Result<()> {
    if state.len() != gates.states as usize || input.len() != gates.inputs as usize {
        return println!(rt; "columns of another width");
    }
    match two_cycle(rt.alloc(), gates, state, input) {
        Ok(frame) => {
            print_bits(rt, &frame.outs)?;
            print!(rt; " ")?;
            print_bits(rt, &frame.nexts)?;
            println!(rt; "")
        }
        Err(_) => println!(rt; "out of memory"),
    }
}

// A cycle of places.
fn print_unknown<R: Print + AllocGlobal>(
    rt: &R,
    gates: &Gates,
    state: &[Tern],
    input: &[Tern],
) -> io::Result<()> {
    if state.len() != gates.states as usize || input.len() != gates.inputs as usize {
        return println!(rt; "columns of another width");
    }
    match tern_cycle(rt.alloc(), gates, state, input) {
        Ok(frame) => {
            print_places(rt, &frame.outs, "x")?;
            print!(rt; " ")?;
            print_places(rt, &frame.nexts, "x")?;
            println!(rt; "")
        }
        Err(_) => println!(rt; "out of memory"),
    }
}

// The first two columns of a line, and what comes of them.
fn print_line<R: Print + AllocGlobal>(rt: &R, gates: &Gates, line: &[u8]) -> io::Result<()> {
    let state = column(rt.alloc(), line, 1)?;
    let input = column(rt.alloc(), line, 2)?;
    print_places(rt, &state, "x")?;
    print!(rt; " ")?;
    print_places(rt, &input, "x")?;
    print!(rt; " ")?;
    if state.contains(&Tern::Unknown) || input.contains(&Tern::Unknown) {
        return print_unknown(rt, gates, &state, &input);
    }
    let state = bits_of(rt.alloc(), &state)?;
    let input = bits_of(rt.alloc(), &input)?;
    print_known(rt, gates, &state, &input)
}

// Each line of a table of cycles.
fn print_lines<R: Print + AllocGlobal>(rt: &R, gates: &Gates, table: &[u8]) -> io::Result<()> {
    for line in table.split(|b| *b == b'\n') {
        if !line.is_empty() {
            print_line(rt, gates, line)?;
        }
    }
    Ok(())
}

/// Prints for each line of a table its state and its input, and what the gates of these files show and lead to.
pub(crate) fn cycles<R: Files + Print + AllocGlobal>(
    rt: &R,
    table: &str,
    top: &str,
    clock: &str,
    files: &[String],
) -> io::Result<()> {
    let Some(table) = text_of(rt, table) else {
        return println!(rt; "no table");
    };
    match gates_of(rt, top, clock, files) {
        Ok(gates) => print_lines(rt, &gates, &table),
        Err(_) => println!(rt; "no gates"),
    }
}
