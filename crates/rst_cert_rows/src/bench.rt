// Small parts of certificates, written as the format writes them.
ghost use Rattle.std.specs.Prelude.{◌≡◌, IfOk};

use rst_clause::{Clause, Lit, Log};
use rst_gate::{Bits, Cube, Pattern, Sequence};
use rst_outside::{Name, NoMemory};
use rst_pair::{Hop, Journal};
use rst_value::Tern;
use rst_verdict::{Cert, Hops, Verdict};
use std::alloc::Global;

/// The bits of these digits.
pub(crate) fn bits(alloc: Global, digits: &str) -> Result<Bits, NoMemory> {
    let mut bits = Bits::new(alloc);
    for digit in digits.as_bytes() {
        bits.push(*digit == b'1')?;
    }
    Ok(bits)
}

/// The cube of these digits, with `-` for either bit.
pub(crate) fn cube(alloc: Global, digits: &str) -> Result<Cube, NoMemory> {
    let mut places = Cube::new(alloc);
    for digit in digits.as_bytes() {
        places.push(match *digit {
            b'0' => Tern::Zero,
            b'1' => Tern::One,
            _ => Tern::Unknown,
        })?;
    }
    Ok(places)
}

/// A word of inputs.
pub(crate) fn word(alloc: Global, steps: &[&str]) -> Result<Sequence, NoMemory> {
    let mut word = Sequence::new(alloc);
    for step in steps {
        word.push(bits(alloc, step)?)?;
    }
    Ok(word)
}

/// A pattern of inputs.
pub(crate) fn pattern(alloc: Global, steps: &[&str]) -> Result<Pattern, NoMemory> {
    let mut pattern = Pattern::new(alloc);
    for step in steps {
        pattern.push(cube(alloc, step)?)?;
    }
    Ok(pattern)
}

/// A hop's cube, its input, and its next hop.
pub(crate) type HopRow = (&'static str, &'static str, Option<u32>);

pub(crate) fn hop(alloc: Global, row: HopRow) -> Result<Hop, NoMemory> {
    let (places, input, next) = row;
    let cube = cube(alloc, places)?;
    let input = bits(alloc, input)?;
    Ok(Hop { cube, input, next })
}

pub(crate) fn hops(alloc: Global, rows: &[HopRow]) -> Result<Hops, NoMemory> {
    let mut hops = Hops::new(alloc);
    for row in rows {
        hops.push(hop(alloc, *row)?)?;
    }
    Ok(hops)
}

fn clause(alloc: Global, numbers: &[i32]) -> Result<Clause, NoMemory> {
    let mut clause = Clause::new(alloc);
    for number in numbers {
        if *number != 0 {
            clause.push(Lit::new(*number))?;
        }
    }
    Ok(clause)
}

/// A log of clauses.
pub(crate) fn log(alloc: Global, clauses: &[&[i32]]) -> Result<Log, NoMemory> {
    let mut log = Log::new(alloc);
    for numbers in clauses {
        log.push(clause(alloc, numbers)?)?;
    }
    Ok(log)
}

/// A log of so many clauses of the literal 1.
pub(crate) fn long_log(alloc: Global, count: u32) -> Result<Log, NoMemory> {
    let mut log = Log::new(alloc);
    for _ in 0..count {
        log.push(clause(alloc, &[1])?)?;
    }
    Ok(log)
}

/// A certificate of version 2 and form 2 with the clock `clk`, of so many registers and of an input and
/// an output.
pub(crate) fn cert(alloc: Global, registers: u32, verdict: Verdict) -> Result<Box<Cert>, NoMemory>
    ensures { IfOk result (λ cert. cert.value.version ≡ 2) }
{
    match Name::new(alloc, b"clk") {
        Ok(clock) => boxed(
            alloc,
            Cert {
                version: 2,
                form: 2,
                clock: Some(clock),
                registers,
                inputs: 1,
                outputs: 1,
                verdict,
            },
        ),
        Err(refused) => {
            drop(verdict);
            Err(refused)
        }
    }
}

/// The value in a box.
pub(crate) fn boxed<T: Drop>(alloc: Global, value: T) -> Result<Box<T>, NoMemory>
    ensures { IfOk result (λ it. it.value ≡ value) }
{
    Ok(Box::new(alloc, value)?)
}

/// No work.
pub(crate) fn no_work(alloc: Global) -> Journal {
    Journal::new(alloc)
}
