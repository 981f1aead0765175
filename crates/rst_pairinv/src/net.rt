// The gates of both sides as clauses in a solver.

use crate::lits::{FALSE, lit_at, lit_of, not, number, of_variable};
use rst_cdcl::Solver;
use rst_gate::{Gate, Gates};
use rst_outside::NoMemory;
use std::alloc::Global;

/// A clause of a gate: three literals, of which two may be the same.
#[derive(Clone, Copy)]
pub(crate) struct Three(pub(crate) u32, pub(crate) u32, pub(crate) u32);

/// The clauses of a gate with this literal, by those of the nodes. Of a choice, and of a sum, the
/// first and the last have the first operand, and the others its opposite; the first two have the
/// opposite of the gate.
pub(crate) fn clauses_of(
    alloc: Global,
    gate: Gate,
    own: u32,
    nodes: &[u32],
) -> Result<Vec<Three>, NoMemory> {
    let mut clauses = Vec::new(alloc);
    match gate {
        Gate::And(a, b) => {
            let (a, b) = (lit_of(nodes, a), lit_of(nodes, b));
            clauses.push(Three(not(own), a, a))?;
            clauses.push(Three(not(own), b, b))?;
            clauses.push(Three(own, not(a), not(b)))?;
        }
        Gate::Xor(a, b) => {
            let (a, b) = (lit_of(nodes, a), lit_of(nodes, b));
            clauses.push(Three(not(own), a, b))?;
            clauses.push(Three(not(own), not(a), not(b)))?;
            clauses.push(Three(own, not(a), b))?;
            clauses.push(Three(own, a, not(b)))?;
        }
        Gate::Mux(a, b, c) => {
            let select = lit_of(nodes, a);
            let (one, zero) = (lit_of(nodes, b), lit_of(nodes, c));
            clauses.push(Three(not(own), select, zero))?;
            clauses.push(Three(not(own), not(select), one))?;
            clauses.push(Three(own, not(select), not(one)))?;
            clauses.push(Three(own, select, not(zero)))?;
        }
    }
    Ok(clauses)
}

/// A solver, how many of its variables are in use, and how many clauses it has.
#[derive(Drop)]
pub(crate) struct Net {
    pub(crate) solver: Solver,
    vars: u32,
    pub(crate) clauses: u32,
}

impl Net {
    /// One variable, which is false.
    pub(crate) fn new(solver: Solver) -> Result<Net, NoMemory> {
        let mut net = Net {
            solver,
            vars: 1,
            clauses: 0,
        };
        let high = not(FALSE);
        net.three(Three(high, high, high))?;
        Ok(net)
    }

    fn fresh(&mut self) -> u32 {
        self.vars = self.vars.saturating_add(1);
        of_variable(self.vars)
    }

    fn three(&mut self, clause: Three) -> Result<(), NoMemory> {
        let Three(a, b, c) = clause;
        self.solver.add(&[number(a), number(b), number(c)])?;
        self.clauses = self.clauses.saturating_add(1);
        Ok(())
    }

    pub(crate) fn many(&mut self, alloc: Global, count: u32) -> Result<Vec<u32>, NoMemory> {
        let mut lits = Vec::new(alloc);
        for _ in 0..count {
            lits.push(self.fresh())?;
        }
        Ok(lits)
    }

    fn gate(&mut self, alloc: Global, nodes: &[u32], gate: Gate) -> Result<u32, NoMemory> {
        let own = self.fresh();
        let clauses = clauses_of(alloc, gate, own, nodes)?;
        for clause in clauses.as_slice() {
            self.three(*clause)?;
        }
        Ok(own)
    }

    /// The nodes of one side. A gate that reads what its like on the other side reads is that one.
    pub(crate) fn side(
        &mut self,
        alloc: Global,
        gates: &Gates,
        inputs: &[u32],
        states: &[u32],
        like: &[u32],
    ) -> Result<Vec<u32>, NoMemory> {
        let mut nodes = Vec::new(alloc);
        nodes.push(FALSE)?;
        nodes.extend_from_slice(inputs)?;
        nodes.extend_from_slice(states)?;
        for gate in gates.gates.as_slice() {
            let at = nodes.len();
            if at < like.len() && reads_alike(nodes.as_slice(), like, *gate) {
                nodes.push(like[at])?;
            } else {
                let lit = self.gate(alloc, nodes.as_slice(), *gate)?;
                nodes.push(lit)?;
            }
        }
        Ok(nodes)
    }

    /// For each output a literal that has both sides' differ.
    pub(crate) fn differing(
        &mut self,
        alloc: Global,
        left: &[u32],
        right: &[u32],
    ) -> Result<Vec<u32>, NoMemory> {
        let mut lits = Vec::new(alloc);
        for i in 0..left.len() {
            let differ = self.fresh();
            let (a, b) = (lit_at(left, i), lit_at(right, i));
            self.three(Three(not(differ), a, b))?;
            self.three(Three(not(differ), not(a), not(b)))?;
            lits.push(differ)?;
        }
        Ok(lits)
    }
}

fn reads_alike(nodes: &[u32], like: &[u32], gate: Gate) -> bool {
    match gate {
        Gate::And(a, b) | Gate::Xor(a, b) => {
            lit_of(nodes, a) == lit_of(like, a) && lit_of(nodes, b) == lit_of(like, b)
        }
        Gate::Mux(a, b, c) => {
            lit_of(nodes, a) == lit_of(like, a)
                && lit_of(nodes, b) == lit_of(like, b)
                && lit_of(nodes, c) == lit_of(like, c)
        }
    }
}

/// The right side's registers: marked ones are those of the left side.
pub(crate) fn shared(
    alloc: Global,
    marks: &[bool],
    left: &[u32],
    right: &[u32],
) -> Result<Vec<u32>, NoMemory> {
    let mut lits = Vec::new(alloc);
    for i in 0..right.len() {
        let marked = i < marks.len() && marks[i];
        lits.push(if marked { lit_at(left, i) } else { right[i] })?;
    }
    Ok(lits)
}

/// Whether both sides are the same gates.
pub(crate) fn are_one(left: &Gates, right: &Gates) -> bool {
    let first = left.gates.as_slice();
    let second = right.gates.as_slice();
    if first.len() != second.len() || left.states != right.states {
        return false;
    }
    for i in 0..first.len() {
        if first[i] != second[i] {
            return false;
        }
    }
    true
}
