// The lines of a log, and the clauses that each is derived from, as they are put together. They
// promise nothing.

use crate::lits::{narrow, not, number, numbers_of};
use crate::net::Three;
use rst_cdcl::{Hint, Log};
use rst_gate::Gate;
use rst_outside::NoMemory;
use std::alloc::Global;

#[derive(Drop)]
pub(crate) struct Draft {
    alloc: Global,
    pub(crate) log: Log,
    // of the line that comes next
    hints: Vec<Hint>,
}

impl Draft {
    /// No line.
    pub(crate) fn new(alloc: Global) -> Draft {
        Draft {
            alloc,
            log: Log::new(alloc),
            hints: Vec::new(alloc),
        }
    }

    /// How many lines there are.
    pub(crate) fn len(&self) -> u32 {
        narrow(self.log.len())
    }

    /// The next line is derived from this clause, behind those before.
    pub(crate) fn by(&mut self, hint: Hint) -> Result<(), NoMemory> {
        self.hints.push(hint)?;
        Ok(())
    }

    pub(crate) fn by_two(&mut self, a: u32, b: u32) -> Result<(), NoMemory> {
        self.by(Hint::Two(number(a), number(b)))
    }

    pub(crate) fn by_three(&mut self, clause: Three) -> Result<(), NoMemory> {
        let Three(a, b, c) = clause;
        self.by(Hint::Three(number(a), number(b), number(c)))
    }

    /// By the clause that one literal implies another, where they are two.
    pub(crate) fn carry(&mut self, from: u32, to: u32) -> Result<(), NoMemory> {
        if from == to {
            return Ok(());
        }
        self.by_two(not(from), to)
    }

    // By the clause at the place, if it is there.
    fn by_place(&mut self, clauses: &[Three], place: usize) -> Result<(), NoMemory> {
        if place < clauses.len() {
            self.by_three(clauses[place])?;
        }
        Ok(())
    }

    /// One more line.
    pub(crate) fn push(&mut self, line: &[u32]) -> Result<(), NoMemory> {
        let numbers = numbers_of(self.alloc, line, false)?;
        self.log.note(numbers.as_slice(), self.hints.as_slice())?;
        self.hints.clear();
        Ok(())
    }

    /// The first clause, as it follows from the second, whose literals it has by other names.
    pub(crate) fn push_alike(&mut self, first: Three, second: Three) -> Result<(), NoMemory> {
        let Three(a, b, c) = first;
        let Three(d, e, f) = second;
        if a == d && b == e && c == f {
            return Ok(());
        }
        self.carry(d, a)?;
        self.carry(e, b)?;
        self.carry(f, c)?;
        self.by_three(second)?;
        self.push(&[a, b, c])
    }

    /// That two gates of one kind which read the same have the same value, by their clauses.
    pub(crate) fn push_twins(
        &mut self,
        gate: Gate,
        left: u32,
        lefts: &[Three],
        right: u32,
        rights: &[Three],
    ) -> Result<(), NoMemory> {
        let only_and = matches!(gate, Gate::And(_, _));
        self.push_implied(only_and, right, rights, left, lefts)?;
        self.push_implied(only_and, left, lefts, right, rights)
    }

    // That the first gate's being true makes the second one true. Where it is no conjunction, first
    // where the first operand is false.
    fn push_implied(
        &mut self,
        only_and: bool,
        first: u32,
        firsts: &[Three],
        second: u32,
        seconds: &[Three],
    ) -> Result<(), NoMemory> {
        if only_and {
            self.by_place(firsts, 0)?;
            self.by_place(firsts, 1)?;
            self.by_place(seconds, 2)?;
            return self.push(&[not(first), second]);
        }
        if firsts.is_empty() {
            return Ok(());
        }
        let Three(_, operand, _) = firsts[0];
        self.by_place(firsts, 0)?;
        self.by_place(seconds, 3)?;
        self.push(&[not(first), second, operand])?;
        self.by_three(Three(not(first), second, operand))?;
        self.by_place(firsts, 1)?;
        self.by_place(seconds, 2)?;
        self.push(&[not(first), second])
    }
}
