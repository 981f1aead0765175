// The solver as its callers see it.
ghost use Rattle.std.specs.Prelude.{◌≡◌, ◌≤◌, ◌+◌, length, IfOk};
ghost use Rattle.rst_cdcl.specs.Solvers.{HasWidth};

use crate::log::Log;
use crate::search::{Next, Search};
use std::alloc::{AllocError, Global};
use std::marker::Model;

/// What a search found.
#[derive(Drop)]
pub enum Outcome {
    /// A value for each variable, from 1. By the search's own account they solve the clauses and
    /// the assumptions.
    Model(Vec<bool>),
    /// These of the assumptions have no solution; the log's last clause denies them, and is the
    /// empty clause where none of them is needed.
    Refuted(Vec<i32>),
    /// As many conflicts as were allowed came to nothing.
    GaveUp,
}

/// A solver for clauses over the variables 1 to a bound. It keeps what it learnt from one call to
/// the next.
///
/// Contracts see the number of variables and a count of the conflicts that were learnt from. After
/// an error the solver is safe, but what it finds may be wrong.
#[derive(Drop)]
pub struct Solver {
    alloc: Global,
    vars: u32,
    conflicts: u64,
    search: Search,
}

impl Model for Solver {
    ghost use Rattle.rst_cdcl.specs.Solvers.{Solver'};

    ghost Value = { Solver' };

    ghost view = { λ s. record { vars = s.vars; conflicts = s.conflicts } };
}

impl Solver {
    /// A solver over the variables 1 to `vars`, without a clause. It decides the variables 1 to
    /// `early` before all others; with 0 it decides what the conflicts meet most. AllocError where
    /// there is no memory for some 60 bytes a variable.
    pub fn new(alloc: Global, vars: u32, early: u32) -> Result<Solver, AllocError>
        ensures { IfOk result (λ s. (s.vars ≡ vars) × (s.conflicts ≡ 0)) }
    {
        Ok(Solver {
            alloc,
            vars,
            conflicts: 0,
            search: Search::new(alloc, vars, early)?,
        })
    }

    /// The clauses that were learnt, and at a refutation the one that denies the assumptions. Each
    /// follows, by the search's own account, by unit propagation from the clauses that were added
    /// and from earlier ones of the log.
    pub fn log(&self) -> &Log {
        &self.search.log
    }

    /// The clauses of the log that its last one needs, by the search's own account, and itself.
    pub fn trimmed_log(&self) -> Result<Log, AllocError> {
        self.search.trimmed_log()
    }

    /// How many conflicts were learnt from.
    pub fn conflicts(&self) -> u64
        ensures { result ≡ self.now.conflicts }
    {
        self.conflicts
    }

    /// How many variables were decided.
    pub fn decisions(&self) -> u64 {
        self.search.decisions
    }

    /// Says that the clause will be added. Once all that are known beforehand have been said,
    /// `make_room` lays out exactly the memory for them, and adding them moves nothing.
    pub fn expect(&mut self, lits: &[i32])
        ensures { self.new ≡ self.old }
    {
        self.search.expect(lits);
    }

    /// Makes room for the clauses that were said to come, before the first is added.
    pub fn make_room(&mut self) -> Result<(), AllocError>
        ensures { self.new ≡ self.old }
    {
        self.search.watches.make_room()
    }

    /// Adds a clause, before a search or between two of them. One with a literal beyond the
    /// variables is left out.
    pub fn add(&mut self, lits: &[i32]) -> Result<(), AllocError>
        ensures { self.new ≡ self.old }
    {
        self.search.add(lits)
    }

    // The values of all variables.
    fn model(&self) -> Result<Vec<bool>, AllocError>
        ensures { IfOk result (λ bits. length bits.items ≡ self.now.vars) }
    {
        let mut bits = Vec::with_capacity(self.alloc, self.vars as usize)?;
        for variable in 0..self.vars {
            bits.push(self.search.assignment.is_true(variable << 1))?;
        }
        Ok(bits)
    }

    /// Searches for a solution of the clauses under the assumptions, and learns from at most
    /// `conflicts` conflicts. A conflict that no decision led to refutes, and is not counted.
    pub fn solve(&mut self, assumptions: &[i32], conflicts: u64) -> Result<Outcome, AllocError>
        ensures vars { self.new.vars ≡ self.old.vars }
        ensures bounded { self.new.conflicts ≤ self.old.conflicts + conflicts }
        ensures width { IfOk result (λ found. HasWidth self.old.vars found) }
    {
        if self.search.refuted {
            return Ok(Outcome::Refuted(Vec::new(self.alloc)));
        }
        self.search.backtrack(0);
        let mut learnt = 0u64;
        let steps = self.search.steps(assumptions.len(), conflicts);
        for _ in 0..steps {
            if let Some(conflict) = self.search.propagate()? {
                let top = self.search.top_of(conflict)?;
                if top.level == 0 {
                    self.search.refute_by(conflict)?;
                    return Ok(Outcome::Refuted(Vec::new(self.alloc)));
                }
                if top.second < top.level {
                    self.search.turn(conflict, top);
                    continue;
                }
                if learnt >= conflicts {
                    return Ok(Outcome::GaveUp);
                }
                learnt += 1;
                self.conflicts = self.conflicts.saturating_add(1);
                self.search.analyze(conflict, top.level, assumptions.len())?;
                continue;
            }
            match self.search.next(assumptions)? {
                Next::Decided => {}
                Next::Model => return Ok(Outcome::Model(self.model()?)),
                Next::Fails(lit) => return Ok(Outcome::Refuted(self.search.refute_failed(lit)?)),
            }
        }
        Ok(Outcome::GaveUp)
    }
}
