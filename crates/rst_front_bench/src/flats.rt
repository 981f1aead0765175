// Flat designs.
use crate::facts::print_flat;
use crate::files::{clock_of, sources_of, texts_of};
use crate::printing::print_stop;
use rst_causes::elaboration_stop;
use rst_elab::{ElabError, elaborate as elaborated};
use rst_net::Flat;
use rst_reject::Stop;
use std::io;
use std::rt::Files;

// The flat design of these files below the top, or the refusal.
fn flat_of<R: Files + AllocGlobal>(
    rt: &R,
    top: &str,
    clock: &str,
    files: &[String],
) -> Result<Flat, Stop> {
    let Some(texts) = texts_of(rt, files) else {
        return Err(Stop::NoMemory);
    };
    let Some(sources) = sources_of(rt.alloc(), &texts) else {
        return Err(Stop::NoMemory);
    };
    match elaborated(rt.alloc(), &sources, top.as_bytes(), clock_of(clock)) {
        Ok(flat) => Ok(flat),
        Err(ElabError::Fault(fault)) => Err(elaboration_stop(fault)),
        Err(ElabError::NoMemory) => Err(Stop::NoMemory),
    }
}

/// Prints the flat design of these files below the top, or the refusal.
pub(crate) fn elaborate<R: Files + Print + AllocGlobal>(
    rt: &R,
    top: &str,
    clock: &str,
    files: &[String],
) -> io::Result<()> {
    match flat_of(rt, top, clock, files) {
        Ok(flat) => print_flat(rt, &flat),
        Err(stop) => print_stop(rt, &stop),
    }
}

/// Prints how many units the flat design of these files has, for measurements.
pub(crate) fn count<R: Files + Print + AllocGlobal>(
    rt: &R,
    top: &str,
    clock: &str,
    files: &[String],
) -> io::Result<()> {
    match flat_of(rt, top, clock, files) {
        Ok(flat) => println!(rt; "units {}", flat.units.len()),
        Err(stop) => print_stop(rt, &stop),
    }
}
