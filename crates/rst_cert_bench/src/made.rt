// Certificates of long lines.
ghost use Rattle.std.specs.Prelude.{◌≡◌, IfOk};

use rst_clause::{Clause, Lit, Log};
use rst_gate::{Bits, Cube, Pattern};
use rst_outside::NoMemory;
use rst_pair::Hop;
use rst_value::Tern;
use rst_verdict::{Cert, Hops, Verdict};
use std::alloc::Global;

/// How many literals a clause has, of eleven bytes each.
const LITERALS: u32 = 100;

/// How many registers and inputs there are.
const REGISTERS: u32 = 512;

const INPUTS: u32 = 256;

fn clause(alloc: Global) -> Result<Clause, NoMemory> {
    let mut clause = Clause::new(alloc);
    for i in 0..LITERALS {
        clause.push(Lit::of_variable(1_000_000_000 + i))?;
    }
    Ok(clause)
}

fn log(alloc: Global, count: u32) -> Result<Log, NoMemory> {
    let mut log = Log::new(alloc);
    for _ in 0..count {
        log.push(clause(alloc)?)?;
    }
    Ok(log)
}

fn bits(alloc: Global, count: u32) -> Result<Bits, NoMemory> {
    let mut bits = Bits::new(alloc);
    for i in 0..count {
        bits.push(i % 3 == 0)?;
    }
    Ok(bits)
}

fn cube(alloc: Global, count: u32) -> Result<Cube, NoMemory> {
    let mut places = Cube::new(alloc);
    for i in 0..count {
        places.push(if i % 3 == 0 { Tern::One } else { Tern::Unknown })?;
    }
    Ok(places)
}

// A hop over both states of all registers.
fn hop(alloc: Global) -> Result<Hop, NoMemory> {
    let cube = cube(alloc, 2 * REGISTERS)?;
    let input = bits(alloc, INPUTS)?;
    Ok(Hop {
        cube,
        input,
        next: None,
    })
}

fn hops(alloc: Global, count: u32) -> Result<Hops, NoMemory> {
    let mut hops = Hops::new(alloc);
    for _ in 0..count {
        hops.push(hop(alloc)?)?;
    }
    Ok(hops)
}

fn boxed<T: Drop>(alloc: Global, value: T) -> Result<Box<T>, NoMemory>
    ensures { IfOk result (λ it. it.value ≡ value) }
{
    Ok(Box::new(alloc, value)?)
}

/// A certificate of kind `relation` and version 2, with so many blocked hops and so many clauses in its
/// split log.
pub(crate) fn relation(alloc: Global, blocked: u32, clauses: u32) -> Result<Box<Cert>, NoMemory>
    ensures { IfOk result (λ cert. cert.value.version ≡ 2) }
{
    let equal = bits(alloc, REGISTERS)?;
    let blocked = hops(alloc, blocked)?;
    let split = log(alloc, clauses)?;
    let verdict = Verdict::SignedRelation {
        seq: Pattern::new(alloc),
        equal,
        blocked,
        split,
        land: Log::new(alloc),
    };
    boxed(
        alloc,
        Cert {
            version: 2,
            form: 2,
            clock: None,
            registers: REGISTERS,
            inputs: INPUTS,
            outputs: 1,
            verdict,
        },
    )
}
