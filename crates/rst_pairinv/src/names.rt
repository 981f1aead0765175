// What the posed question calls the literals of the kept solver. It numbers inputs, left registers,
// right ones that aren't marked, the constant, left gates and right gates, those too that are one
// with a left gate in the solver.

use crate::lits::{FALSE, lit_at, not, of_variable};
use rst_gate::Gates;
use rst_outside::NoMemory;
use rst_pair::Pair;
use std::alloc::Global;

#[derive(Drop)]
pub(crate) struct Names {
    // by the solver's variable
    lits: Vec<u32>,
    /// The nodes of the right side, as the question calls them.
    pub(crate) right: Vec<u32>,
    /// How many variables were given.
    pub(crate) count: u32,
}

fn inputs_of(gates: &Gates) -> usize {
    gates.inputs as usize
}

fn states_of(gates: &Gates) -> usize {
    gates.states as usize
}

// The literals from one place on and before another; none where they are not there.
fn part(lits: &[u32], from: usize, count: usize) -> &[u32] {
    let end = from.saturating_add(count);
    if from <= end && end <= lits.len() {
        &lits[from..end]
    } else {
        &[]
    }
}

impl Names {
    /// Of a pair whose nodes have these literals in the solver.
    pub(crate) fn new(
        alloc: Global,
        pair: &Pair,
        vars: u32,
        left: &[u32],
        right: &[u32],
    ) -> Result<Names, NoMemory> {
        let one = pair.left;
        let other = pair.right;
        let mut names = Names {
            lits: vec![in alloc; FALSE; (vars as usize).saturating_add(1)]?,
            right: Vec::new(alloc),
            count: 0,
        };
        let behind = inputs_of(one).saturating_add(1);
        let states = part(left, behind, states_of(one));
        names.give(part(left, 1, inputs_of(one)));
        names.give(states);
        let beyond = inputs_of(other).saturating_add(1);
        names.give_open(states, part(right, beyond, states_of(other)));
        names.give(&[FALSE]);
        let first = behind.saturating_add(states_of(one));
        names.give(part(left, first, left.len().saturating_sub(first)));
        let second = beyond.saturating_add(states_of(other));
        names.give_right(left, right, second)?;
        Ok(names)
    }

    /// The literal is called by the variable.
    pub(crate) fn set(&mut self, lit: u32, variable: u32) {
        let place = (lit / 2) as usize;
        if place < self.lits.len() {
            self.lits[place] = of_variable(variable);
        }
    }

    /// What the literal is called.
    pub(crate) fn of(&self, lit: u32) -> u32 {
        let name = lit_at(self.lits.as_slice(), (lit / 2) as usize);
        if lit % 2 == 0 { name } else { not(name) }
    }

    /// What the literals are called.
    pub(crate) fn of_all(&self, alloc: Global, lits: &[u32]) -> Result<Vec<u32>, NoMemory> {
        let mut names = Vec::new(alloc);
        for lit in lits {
            names.push(self.of(*lit))?;
        }
        Ok(names)
    }

    /// The next variable.
    pub(crate) fn next(&mut self) -> u32 {
        self.count = self.count.saturating_add(1);
        self.count
    }

    // Calls each of the literals by the next variable.
    fn give(&mut self, lits: &[u32]) {
        for lit in lits {
            let variable = self.next();
            self.set(*lit, variable);
        }
    }

    // Calls the registers that aren't shared by the next variables.
    fn give_open(&mut self, left: &[u32], right: &[u32]) {
        for i in 0..right.len() {
            if right[i] != lit_at(left, i) {
                let variable = self.next();
                self.set(right[i], variable);
            }
        }
    }

    // Calls the right side's nodes from a place on by the next variables. Of shared ones the literal
    // keeps the left one's name.
    fn give_right(&mut self, left: &[u32], right: &[u32], from: usize) -> Result<(), NoMemory> {
        for i in 0..right.len() {
            if i < from {
                let name = self.of(right[i]);
                self.right.push(name)?;
                continue;
            }
            let variable = self.next();
            if right[i] != lit_at(left, i) {
                self.set(right[i], variable);
            }
            self.right.push(of_variable(variable))?;
        }
        Ok(())
    }
}
