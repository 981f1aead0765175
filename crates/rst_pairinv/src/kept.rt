// A solver that is kept between questions. It holds both sides' gates once, and asks for one way out
// of the relation at a time; one that has no solution is never asked again, since the relation only
// shrinks. What it finds promises nothing.

use crate::find::Guess;
use crate::lines::{Learnt, lines};
use crate::lits::{joined, lits_of, number, numbers_of, said, values_of};
use crate::net::{Net, are_one, shared};
use rst_cdcl::{Log, Outcome, Solver};
use rst_gate::{Edge, Gate, Gates};
use rst_outside::NoMemory;
use rst_pair::{Hop, Pair};
use std::alloc::Global;

// Conflicts that all questions may take together, for each unit of work.
const CONFLICTS: u64 = 4;

fn count_of(edges: &[Edge], gates: &[Gate]) -> u32 {
    let mut count = 0u32;
    for _ in edges {
        count = count.saturating_add(1);
    }
    for _ in gates {
        count = count.saturating_add(1);
    }
    count
}

// How many variables a side needs at most.
fn room(gates: &Gates) -> u32 {
    let few = gates.inputs.saturating_add(gates.states);
    few.saturating_add(count_of(gates.outs.as_slice(), gates.gates.as_slice()))
}

#[derive(Drop)]
pub(crate) struct Kept {
    solver: Solver,
    vars: u32,
    inputs: Vec<u32>,
    left: Vec<u32>,
    right: Vec<u32>,
    // the nodes of both sides
    first: Vec<u32>,
    second: Vec<u32>,
    both: Vec<u32>,
    nexts: Vec<u32>,
    differ: Vec<u32>,
    // how many clauses the gates have
    clauses: u32,
    // how many blocked cubes are denied, and how many ways out are closed
    denied: usize,
    closed: usize,
    // how long the solver's log was when each of them was
    closings: Vec<usize>,
}

impl Kept {
    pub(crate) fn new(alloc: Global, pair: &Pair, marks: &[bool]) -> Result<Kept, NoMemory> {
        let one = pair.left;
        let other = pair.right;
        let vars = room(one).saturating_add(room(other)).saturating_add(1);
        let mut net = Net::new(Solver::new(alloc, vars, 0)?)?;
        let inputs = net.many(alloc, one.inputs)?;
        let left = net.many(alloc, one.states)?;
        let drawn = net.many(alloc, other.states)?;
        let right = shared(alloc, marks, left.as_slice(), drawn.as_slice())?;
        let first = net.side(alloc, one, inputs.as_slice(), left.as_slice(), &[])?;
        let like: &[u32] = if are_one(one, other) {
            first.as_slice()
        } else {
            &[]
        };
        let second = net.side(alloc, other, inputs.as_slice(), right.as_slice(), like)?;
        let outs = lits_of(alloc, one.outs.as_slice(), first.as_slice())?;
        let shown = lits_of(alloc, other.outs.as_slice(), second.as_slice())?;
        let differ = net.differing(alloc, outs.as_slice(), shown.as_slice())?;
        let ahead = lits_of(alloc, one.nexts.as_slice(), first.as_slice())?;
        let beyond = lits_of(alloc, other.nexts.as_slice(), second.as_slice())?;
        let nexts = joined(alloc, ahead.as_slice(), beyond.as_slice())?;
        let both = joined(alloc, left.as_slice(), right.as_slice())?;
        let clauses = net.clauses;
        let solver = net.solver;
        Ok(Kept {
            solver,
            vars,
            inputs,
            left,
            right,
            first,
            second,
            both,
            nexts,
            differ,
            clauses,
            denied: 0,
            closed: 0,
            closings: Vec::new(alloc),
        })
    }

    // Denies the cubes that are new.
    fn deny(&mut self, alloc: Global, hops: &[Hop]) -> Result<(), NoMemory> {
        for i in self.denied..hops.len() {
            let known = said(alloc, hops[i].cube.as_slice(), self.both.as_slice())?;
            let clause = numbers_of(alloc, known.as_slice(), true)?;
            self.solver.add(clause.as_slice())?;
        }
        self.denied = hops.len();
        Ok(())
    }

    // What is assumed of a way out: that an output differs, or that the successors lie in a cube.
    fn way(&self, alloc: Global, hops: &[Hop], place: usize) -> Result<Vec<i32>, NoMemory> {
        let outs = self.differ.len();
        if place < outs {
            let mut numbers = Vec::new(alloc);
            numbers.push(number(self.differ[place]))?;
            return Ok(numbers);
        }
        if place - outs < hops.len() {
            let cube = hops[place - outs].cube.as_slice();
            let known = said(alloc, cube, self.nexts.as_slice())?;
            return numbers_of(alloc, known.as_slice(), false);
        }
        Ok(Vec::new(alloc))
    }

    fn guess_of(&self, alloc: Global, values: &[bool]) -> Result<Guess, NoMemory> {
        let input = values_of(alloc, values, self.inputs.as_slice())?;
        let left = values_of(alloc, values, self.left.as_slice())?;
        let right = values_of(alloc, values, self.right.as_slice())?;
        Ok(Guess { input, left, right })
    }

    // A guess by the first way out that isn't closed. None where each is closed, and where the
    // conflicts of so many units are spent.
    pub(crate) fn guess(
        &mut self,
        alloc: Global,
        hops: &[Hop],
        units: u32,
    ) -> Result<Option<Guess>, NoMemory> {
        self.deny(alloc, hops)?;
        let most = u64::from(units).saturating_mul(CONFLICTS);
        let ways = self.differ.len().saturating_add(hops.len());
        for place in self.closed..ways {
            let assumed = self.way(alloc, hops, place)?;
            let rest = most.saturating_sub(self.solver.conflicts());
            match self.solver.solve(assumed.as_slice(), rest)? {
                Outcome::Model(values) => {
                    let guess = self.guess_of(alloc, values.as_slice())?;
                    return Ok(Some(guess));
                }
                Outcome::Refuted(_) => {}
                Outcome::GaveUp => return Ok(None),
            }
            self.closed = place + 1;
            self.closings.push(self.solver.log().len())?;
        }
        Ok(None)
    }

    // Where each way out is closed, the lines that refute the posed question, with what each is
    // derived from. They promise nothing.
    pub(crate) fn lines(&self, alloc: Global, pair: &Pair, hops: &[Hop]) -> Result<Log, NoMemory> {
        if self.closed < self.differ.len().saturating_add(hops.len()) {
            return Ok(Log::new(alloc));
        }
        let net = Learnt {
            log: self.solver.log(),
            vars: self.vars,
            clauses: self.clauses,
            first: self.first.as_slice(),
            second: self.second.as_slice(),
            both: self.both.as_slice(),
            differ: self.differ.as_slice(),
            closings: self.closings.as_slice(),
        };
        lines(alloc, pair, hops, &net)
    }
}
