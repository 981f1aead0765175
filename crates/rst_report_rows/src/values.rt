// Values for tests, written as digits.
ghost use Rattle.std.specs.Prelude.{◌≡◌, ◌+◌, ◌≤◌, IfOk};
ghost use Rattle.rst_report.specs.Heads.{width_sum, KeepsLimits};

use rst_clause::Log;
use rst_gate::{Bits, Cube, Pattern, Sequence};
use rst_outside::{Name, NoMemory, PortBits};
use rst_pair::Journal;
use rst_report::{Head, Ports};
use rst_value::Tern;
use rst_verdict::{Hops, Verdict};
use std::alloc::Global;

/// Bits, of digits 0 and 1.
pub fn bits(alloc: Global, digits: &[u8]) -> Result<Bits, NoMemory> {
    let mut bits = Bits::new(alloc);
    for digit in digits {
        bits.push(*digit == b'1')?;
    }
    Ok(bits)
}

fn place(digit: u8) -> Tern {
    match digit {
        b'0' => Tern::Zero,
        b'1' => Tern::One,
        _ => Tern::Unknown,
    }
}

/// Places, of digits 0 and 1 and any mark for X.
pub fn cube(alloc: Global, digits: &[u8]) -> Result<Cube, NoMemory> {
    let mut cube = Cube::new(alloc);
    for digit in digits {
        cube.push(place(*digit))?;
    }
    Ok(cube)
}

/// A word of inputs, cycle by cycle.
pub fn word(alloc: Global, cycles: &[&[u8]]) -> Result<Sequence, NoMemory> {
    let mut word = Sequence::new(alloc);
    for digits in cycles {
        word.push(bits(alloc, digits)?)?;
    }
    Ok(word)
}

/// A pattern of inputs, cycle by cycle.
pub fn pattern(alloc: Global, cycles: &[&[u8]]) -> Result<Pattern, NoMemory> {
    let mut pattern = Pattern::new(alloc);
    for digits in cycles {
        pattern.push(cube(alloc, digits)?)?;
    }
    Ok(pattern)
}

/// A port or a register.
pub fn port(alloc: Global, name: &[u8], width: u8) -> Result<PortBits, NoMemory>
    ensures { IfOk result (λ port. port.width ≡ width) }
{
    let name = Name::new(alloc, name)?;
    Ok(PortBits { name, width })
}

/// One port.
pub fn one_port(alloc: Global, name: &[u8], width: u8) -> Result<Ports, NoMemory>
    ensures { IfOk result (λ ports. width_sum ports ≡ width) }
{
    let mut ports = Vec::new(alloc);
    ports.push(port(alloc, name, width)?)?;
    Ok(Ports::from_vec(ports))
}

/// Two ports.
pub fn two_ports(
    alloc: Global,
    first: &[u8],
    first_width: u8,
    second: &[u8],
    second_width: u8,
) -> Result<Ports, NoMemory>
    ensures { IfOk result (λ ports. width_sum ports ≡ first_width + second_width) }
{
    let front = port(alloc, first, first_width)?;
    let back = port(alloc, second, second_width)?;
    let mut ports = Vec::new(alloc);
    ports.push(front)?;
    ports.push(back)?;
    Ok(Ports::from_vec(ports))
}

/// A toggle: one input `rst`, one register that is the output.
pub fn toggle(alloc: Global) -> Result<Head, NoMemory>
    ensures { IfOk result KeepsLimits }
{
    let inputs = one_port(alloc, b"rst", 1)?;
    let outputs = one_port(alloc, b"q", 1)?;
    let registers = one_port(alloc, b"q", 1)?;
    Ok(Head {
        top: Name::new(alloc, b"t")?,
        inputs,
        outputs,
        registers,
        budget: 20_000,
    })
}

/// A design whose ports and registers stand in another order than their names' bytes do.
pub fn unsorted(alloc: Global) -> Result<Head, NoMemory>
    ensures { IfOk result KeepsLimits }
{
    let inputs = two_ports(alloc, b"rst", 1, b"d", 3)?;
    let outputs = one_port(alloc, b"y", 64)?;
    let registers = two_ports(alloc, b"u0.q", 2, b"Q_$", 1)?;
    Ok(Head {
        top: Name::new(alloc, b"top")?,
        inputs,
        outputs,
        registers,
        budget: 7,
    })
}

/// A design with one input and one output and without registers.
pub fn wires(alloc: Global) -> Result<Head, NoMemory>
    ensures { IfOk result KeepsLimits }
{
    let inputs = one_port(alloc, b"a", 1)?;
    let outputs = one_port(alloc, b"y", 1)?;
    Ok(Head {
        top: Name::new(alloc, b"k")?,
        inputs,
        outputs,
        registers: Ports::new(alloc),
        budget: 20_000,
    })
}

/// Signed by three-valued simulation.
pub fn known(alloc: Global, cycles: &[&[u8]]) -> Result<Verdict, NoMemory> {
    let seq = pattern(alloc, cycles)?;
    Ok(Verdict::SignedKnown { seq })
}

/// Signed by a relation, without evidence.
pub fn related(alloc: Global, cycles: &[&[u8]]) -> Result<Verdict, NoMemory> {
    let seq = pattern(alloc, cycles)?;
    Ok(Verdict::SignedRelation {
        seq,
        equal: Bits::new(alloc),
        blocked: Hops::new(alloc),
        split: Log::new(alloc),
        land: Log::new(alloc),
    })
}

/// Two states that a sequence doesn't align, told apart by a word.
pub fn refuted(
    alloc: Global,
    cycles: &[&[u8]],
    left: &[u8],
    right: &[u8],
    behind: &[&[u8]],
) -> Result<Verdict, NoMemory> {
    let seq = word(alloc, cycles)?;
    let a = bits(alloc, left)?;
    let b = bits(alloc, right)?;
    let word = word(alloc, behind)?;
    Ok(Verdict::Refuted { seq, a, b, word })
}

/// Two states that no word aligns, without evidence.
pub fn never(alloc: Global, left: &[u8], right: &[u8]) -> Result<Verdict, NoMemory> {
    let a = bits(alloc, left)?;
    let b = bits(alloc, right)?;
    Ok(Verdict::Never {
        a,
        b,
        blocked: Hops::new(alloc),
        freed: Hops::new(alloc),
        escape: Log::new(alloc),
    })
}

/// Two states that a sequence doesn't align and a word behind it does, without evidence.
pub fn alignable(
    alloc: Global,
    cycles: &[&[u8]],
    left: &[u8],
    right: &[u8],
    behind: &[&[u8]],
) -> Result<Verdict, NoMemory> {
    let seq = word(alloc, cycles)?;
    let a = bits(alloc, left)?;
    let b = bits(alloc, right)?;
    let word = word(alloc, behind)?;
    Ok(Verdict::Alignable {
        seq,
        a,
        b,
        word,
        blocked: Hops::new(alloc),
        freed: Hops::new(alloc),
        split: Log::new(alloc),
        stuck: Log::new(alloc),
    })
}

/// A spent budget.
pub fn unknown(alloc: Global) -> Verdict {
    Verdict::Unknown {
        equal: Bits::new(alloc),
        journal: Journal::new(alloc),
    }
}
