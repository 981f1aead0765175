// Queries about a design with guarded data: an output word that is a data register where a valid
// bit holds, and zero elsewhere. Two power-up states that agree on the valid bit have to give
// equal outputs, and their successors too.
ghost use Rattle.std.specs.Prelude.{◌<◌, ◌≤◌, ◌^◌};

use rst_clause::{Clauses, Lit};
use rst_outside::NoMemory;
use rst_query_text::Posing;
use std::alloc::Global;

// The most data bits of a design here.
const MOST_BITS: u32 = 1024;

/// Variables of a query that stand one behind another, or where the step is 0 again and again the
/// same one.
#[derive(Clone, Copy)]
struct Word {
    first: u32,
    step: u32,
}

/// The registers of one copy of the design.
#[derive(Clone, Copy)]
struct Registers {
    valid: Lit,
    data: Word,
}

/// The inputs of a cycle.
#[derive(Clone, Copy)]
struct Inputs {
    reset: Lit,
    enable: Lit,
    data: Word,
}

/// What one copy of the design gives in a cycle, beside its valid bit.
#[derive(Clone, Copy)]
struct Cycle {
    outputs: Word,
    next: Registers,
}

/// A set of pairs of states that differ in their outputs: the valid bits are one, the left data
/// register has this value at this bit, and the right one has the other.
#[derive(Clone, Copy)]
pub(crate) struct Blocked {
    bit: u32,
    left: bool,
}

// The literal of a variable.
fn literal(variable: u32) -> Result<Lit, NoMemory> {
    if variable == 0 || variable >= 2_147_483_648 {
        return Err(NoMemory);
    }
    Ok(Lit::of_variable(variable))
}

fn not(lit: Lit) -> Result<Lit, NoMemory> {
    if lit.variable() >= 2_147_483_648 {
        return Err(NoMemory);
    }
    Ok(lit.opposite())
}

// Variables that stand one behind another, from the one behind this.
fn behind(variable: u32) -> Word {
    Word {
        first: variable.saturating_add(1),
        step: 1,
    }
}

impl Word {
    fn bit(&self, place: u32) -> Result<Lit, NoMemory> {
        literal(self.first.saturating_add(self.step.saturating_mul(place)))
    }
}

/// A query under construction, about data of so many bits.
#[derive(Drop)]
struct Query {
    posing: Posing,
    bits: u32,
    low: Lit,
    last: u32,
}

impl Query {
    fn new(alloc: Global, bits: u32, free: u32) -> Result<Query, NoMemory> {
        let last = free.saturating_add(1);
        Ok(Query {
            posing: Posing::new(alloc, free)?,
            bits,
            low: literal(last)?,
            last,
        })
    }

    // The variable of the gate that was added.
    fn made(&mut self) -> Result<Lit, NoMemory> {
        self.last = self.last.saturating_add(1);
        literal(self.last)
    }

    fn and(&mut self, a: Lit, b: Lit) -> Result<Lit, NoMemory> {
        self.posing.and(a, b)?;
        self.made()
    }

    fn xor(&mut self, a: Lit, b: Lit) -> Result<Lit, NoMemory> {
        self.posing.xor(a, b)?;
        self.made()
    }

    fn mux(&mut self, select: Lit, one: Lit, zero: Lit) -> Result<Lit, NoMemory> {
        self.posing.mux(select, one, zero)?;
        self.made()
    }

    // The bits of one word where the literal holds, and else those of the other.
    fn choose(&mut self, select: Lit, one: Word, zero: Word) -> Result<Word, NoMemory> {
        let word = behind(self.last);
        for place in 0..self.bits {
            self.mux(select, one.bit(place)?, zero.bit(place)?)?;
        }
        Ok(word)
    }

    // A word of which all bits are false.
    fn zero(&self) -> Word {
        Word {
            first: self.low.variable(),
            step: 0,
        }
    }

    // One cycle of the design: the outputs are the valid bit and the data where it holds; the
    // valid bit is the enable where there is no reset, and the data are kept without an enable.
    fn cycle(&mut self, inputs: &Inputs, now: &Registers) -> Result<Cycle, NoMemory> {
        let outputs = self.choose(now.valid, now.data, self.zero())?;
        let valid = self.mux(inputs.reset, self.low, inputs.enable)?;
        let data = self.choose(inputs.enable, inputs.data, now.data)?;
        Ok(Cycle {
            outputs,
            next: Registers { valid, data },
        })
    }

    // Whether the pair of states is a blocked one.
    fn lies_in(
        &mut self,
        blocked: Blocked,
        left: &Registers,
        right: &Registers,
    ) -> Result<Lit, NoMemory> {
        let a = left.data.bit(blocked.bit)?;
        let b = right.data.bit(blocked.bit)?;
        let valid = self.and(not(self.low)?, left.valid)?;
        let both = self.and(valid, if blocked.left { a } else { not(a)? })?;
        self.and(both, if blocked.left { not(b)? } else { b })
    }

    // Asks that the pair of states is none of the blocked ones.
    fn forbid(
        &mut self,
        blocked: &[Blocked],
        left: &Registers,
        right: &Registers,
    ) -> Result<(), NoMemory> {
        for cube in blocked {
            let inside = self.lies_in(*cube, left, right)?;
            self.posing.require(&[not(inside)?])?;
        }
        Ok(())
    }

    // Adds for each output behind the valid bit whether the two differ.
    fn add_differences(
        &mut self,
        some: &mut Vec<Lit>,
        first: Word,
        second: Word,
    ) -> Result<(), NoMemory> {
        for place in 0..self.bits {
            some.push(self.xor(first.bit(place)?, second.bit(place)?)?)?;
        }
        Ok(())
    }

    // Adds for each set of blocked pairs whether the pair of states lies in it.
    fn add_each(
        &mut self,
        some: &mut Vec<Lit>,
        blocked: &[Blocked],
        left: &Registers,
        right: &Registers,
    ) -> Result<(), NoMemory> {
        for cube in blocked {
            some.push(self.lies_in(*cube, left, right)?)?;
        }
        Ok(())
    }
}

/// The query whether a pair of states that isn't blocked has outputs that differ, or successors
/// that are blocked. Its free bits are the inputs (reset, enable, data), the valid bit that both
/// states share, the left data and the right data, of so many bits each.
pub(crate) fn split(alloc: Global, bits: u32, blocked: &[Blocked]) -> Result<Clauses, NoMemory> {
    if bits > MOST_BITS {
        return Err(NoMemory);
    }
    let inputs = Inputs {
        reset: literal(1)?,
        enable: literal(2)?,
        data: behind(2),
    };
    let valid = literal(bits + 3)?;
    let left = Registers {
        valid,
        data: behind(bits + 3),
    };
    let right = Registers {
        valid,
        data: behind(2 * bits + 3),
    };
    let mut query = Query::new(alloc, bits, 3 * bits + 3)?;
    let first = query.cycle(&inputs, &left)?;
    let second = query.cycle(&inputs, &right)?;
    query.forbid(blocked, &left, &right)?;
    let mut some = Vec::new(alloc);
    some.push(query.xor(valid, valid)?)?;
    query.add_differences(&mut some, first.outputs, second.outputs)?;
    query.add_each(&mut some, blocked, &first.next, &second.next)?;
    query.posing.require(&some)?;
    Ok(query.posing.finish())
}

/// The query whether some pair of states is blocked behind one cycle of the reset. Its free bits
/// are the left state and the right state, the valid bit first.
pub(crate) fn land(alloc: Global, bits: u32, blocked: &[Blocked]) -> Result<Clauses, NoMemory> {
    if bits > MOST_BITS {
        return Err(NoMemory);
    }
    let left = Registers {
        valid: literal(1)?,
        data: behind(1),
    };
    let right = Registers {
        valid: literal(bits + 2)?,
        data: behind(bits + 2),
    };
    let mut query = Query::new(alloc, bits, 2 * bits + 2)?;
    let inputs = Inputs {
        reset: not(query.low)?,
        enable: query.low,
        data: query.zero(),
    };
    let first = query.cycle(&inputs, &left)?;
    let second = query.cycle(&inputs, &right)?;
    let mut some = Vec::new(alloc);
    query.add_each(&mut some, blocked, &first.next, &second.next)?;
    query.posing.require(&some)?;
    Ok(query.posing.finish())
}

/// The sets of pairs that differ at some bit, for each bit and both ways round: what is blocked
/// in the end.
pub(crate) fn all_blocked(alloc: Global, bits: u32) -> Result<Vec<Blocked>, NoMemory> {
    let mut blocked = Vec::new(alloc);
    for bit in 0..bits {
        blocked.push(Blocked { bit, left: false })?;
        blocked.push(Blocked { bit, left: true })?;
    }
    Ok(blocked)
}

/// The pairs that a model of the query `split` shows to differ: those of the last bit at which
/// its data differ. None where they don't differ.
pub(crate) fn blocked_by(bits: u32, model: &[bool]) -> Option<Blocked> {
    let width = bits as usize;
    let (_, data) = model.split_at_checked(width.saturating_add(3))?;
    let mut found = None;
    for bit in 0..bits {
        let place = bit as usize;
        let left = data.get(place)?;
        let right = data.get(width + place)?;
        if *left != *right {
            found = Some(Blocked { bit, left: *left });
        }
    }
    found
}
