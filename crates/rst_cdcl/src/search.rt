// The search: what was decided and what follows from it, the clauses, and what was learnt.
use crate::analyze::{Analyzer, Learnt};
use crate::arena::{Arena, is_learnt};
use crate::assignment::{Assignment, FALSE, OPEN, Reason};
use crate::cells::{byte, code, narrow, word};
use crate::log::Log;
use crate::propagate::{Conflict, propagate};
use crate::reduce::reduce;
use crate::restart::Luby;
use crate::scores::Scores;
use crate::uses::Uses;
use crate::watches::{BINARY, TERNARY, Watch, Watches};
use std::alloc::{AllocError, Global};

/// Learnt clauses at which the first half is dropped, and by how much that grows.
const FIRST_REDUCE: usize = 4000;

const MORE_LEARNTS: usize = 500;

/// More levels than are taken back at once.
const FAR: u32 = 100;

/// The state of a search.
#[derive(Drop)]
pub struct Search {
    pub alloc: Global,
    pub assignment: Assignment,
    pub watches: Watches,
    pub arena: Arena,
    pub scores: Scores,
    pub analyzer: Analyzer,
    /// The learnt clauses of three literals or more that were not dropped.
    learnts: Vec<u32>,
    most_learnts: usize,
    pub log: Log,
    pub uses: Uses,
    /// The empty clause was learnt.
    pub refuted: bool,
    pub decisions: u64,
    /// How many clauses were added.
    pub added: u32,
    pub luby: Luby,
    /// Conflicts since the last restart.
    pub since_restart: u64,
}

/// What comes after a propagation without a conflict.
#[derive(Clone, Copy)]
pub enum Next {
    Decided,
    /// All variables have values.
    Model,
    /// This assumption is false.
    Fails(u32),
}

impl Search {
    /// No clause.
    pub fn new(alloc: Global, vars: u32, early: u32) -> Result<Search, AllocError> {
        Ok(Search {
            alloc,
            assignment: Assignment::new(alloc, vars)?,
            watches: Watches::new(alloc, vars)?,
            arena: Arena::new(alloc),
            scores: Scores::new(alloc, vars, early)?,
            analyzer: Analyzer::new(alloc, vars)?,
            learnts: Vec::new(alloc),
            most_learnts: FIRST_REDUCE,
            log: Log::new(alloc),
            uses: Uses::new(alloc),
            refuted: false,
            decisions: 0,
            added: 0,
            luby: Luby::new(),
            since_restart: 0,
        })
    }

    /// More steps than a search with so many conflicts takes.
    pub fn steps(&self, assumptions: usize, conflicts: u64) -> u64 {
        let decisions = (self.assignment.vars as u64).saturating_add(assumptions as u64);
        conflicts
            .saturating_add(2)
            .saturating_mul(decisions.saturating_add(2))
    }

    /// Goes back to the end of a level.
    pub fn backtrack(&mut self, level: u32) {
        if self.assignment.level <= level {
            return;
        }
        let floor = word(&self.assignment.starts, level);
        let mut kept = floor;
        for p in floor..self.assignment.count {
            let lit = word(&self.assignment.trail, p);
            if self.assignment.level_of(lit >> 1) > level {
                self.assignment.unassign(lit);
                self.scores.insert(lit >> 1);
            } else {
                self.assignment.put(kept, lit);
                kept = kept.wrapping_add(1);
            }
        }
        self.assignment.count = kept;
        self.assignment.propagated = self.assignment.propagated.min(floor);
        self.assignment.starts.truncate(level as usize);
        self.assignment.level = level;
    }

    // Watches the first two literals of a clause.
    fn watch(&mut self, clause: u32, first: u32, second: u32) -> Result<(), AllocError> {
        let blocker = second;
        self.watches.push(first ^ 1, Watch { clause, blocker })?;
        let blocker = first;
        self.watches.push(second ^ 1, Watch { clause, blocker })
    }

    // One literal watches a clause of three.
    fn watch_ternary(&mut self, lit: u32, other: u32, third: u32) -> Result<(), AllocError> {
        let clause = TERNARY | third;
        let blocker = other;
        self.watches.push(lit ^ 1, Watch { clause, blocker })
    }

    /// Adds a clause of two literals or more, of this origin. What makes its first literal true once
    /// all others are false.
    pub fn attach(&mut self, glue: u32, origin: u32, lits: &[u32]) -> Result<Reason, AllocError> {
        let first = word(lits, 0);
        let second = word(lits, 1);
        if lits.len() == 2 && !is_learnt(origin) {
            self.watch(BINARY, first, second)?;
            return Ok(Reason::Binary(second));
        }
        if lits.len() == 3 && !is_learnt(origin) {
            let third = word(lits, 2);
            self.watch_ternary(first, second, third)?;
            self.watch_ternary(second, third, first)?;
            self.watch_ternary(third, first, second)?;
            return Ok(Reason::Ternary(second, third));
        }
        let clause = self.arena.push(glue, origin, lits)?;
        self.watch(clause, first, second)?;
        Ok(Reason::Clause(clause))
    }

    /// Learns the empty clause: there is nothing left to search.
    pub fn refute(&mut self) -> Result<(), AllocError> {
        self.refuted = true;
        self.learn_line(&[])
    }

    /// One more clause of the log, with what it was derived from.
    pub fn learn_line(&mut self, lits: &[u32]) -> Result<(), AllocError> {
        self.log.push(lits, &self.analyzer.steps)?;
        self.uses.push(&self.analyzer.uses)?;
        self.analyzer.uses.clear();
        self.analyzer.steps.clear();
        Ok(())
    }

    // What is false rests on no decision: notes what it rests on.
    fn note_conflict(&mut self, conflict: Conflict) -> Result<(), AllocError> {
        self.analyzer.uses.clear();
        match conflict {
            Conflict::Binary(one, other) => {
                self.analyzer.note_root(one >> 1)?;
                self.analyzer.note_root(other >> 1)?;
            }
            Conflict::Ternary(one, other, third) => {
                self.analyzer.note_root(one >> 1)?;
                self.analyzer.note_root(other >> 1)?;
                self.analyzer.note_root(third >> 1)?;
            }
            Conflict::Clause(clause) => {
                self.analyzer.note_line(self.arena.line(clause))?;
                for lit in self.arena.lits(clause) {
                    self.analyzer.note_root(*lit >> 1)?;
                }
            }
        }
        self.analyzer.forget();
        Ok(())
    }

    /// Learns the empty clause from what is false without a decision.
    pub fn refute_by(&mut self, conflict: Conflict) -> Result<(), AllocError> {
        self.note_conflict(conflict)?;
        self.refute()
    }

    /// The clauses of the log that the last one needs, and itself.
    pub fn trimmed_log(&self) -> Result<Log, AllocError> {
        self.uses
            .trimmed(self.alloc, &self.assignment, &self.arena, &self.log)
    }

    /// Adds what follows from the literals that stand. A clause that is false, if one is.
    pub fn propagate(&mut self) -> Result<Option<Conflict>, AllocError> {
        propagate(&mut self.assignment, &mut self.watches, &mut self.arena)
    }

    // Adds the learnt clause, whose first literal follows.
    fn add_learnt(&mut self, level: u32, glue: u32) -> Result<(), AllocError> {
        let lits = Vec::from_slice(self.alloc, &self.analyzer.learnt)?;
        let first = word(&lits, 0);
        let line = narrow(self.log.len());
        if lits.len() < 2 {
            self.assignment
                .assign(first, 0, Reason::Learnt(line.wrapping_sub(1)));
            return Ok(());
        }
        let reason = self.attach(glue, line, &lits)?;
        if let Reason::Clause(clause) = reason {
            self.learnts.push(clause)?;
        }
        self.assignment.assign(first, level, reason);
        Ok(())
    }

    // Drops learnt clauses where there are many.
    fn reduce(&mut self) -> Result<(), AllocError> {
        if self.learnts.len() <= self.most_learnts {
            return Ok(());
        }
        self.most_learnts = self.most_learnts.saturating_add(MORE_LEARNTS);
        reduce(
            self.alloc,
            &mut self.assignment,
            &mut self.watches,
            &mut self.arena,
            &mut self.learnts,
        )
    }

    // The place on the trail, from one on, of the variable that comes first by the scores.
    fn best_from(&self, start: u32) -> u32 {
        let mut best = start;
        for p in start..self.assignment.count {
            let variable = word(&self.assignment.trail, p) >> 1;
            if self
                .scores
                .is_before(variable, word(&self.assignment.trail, best) >> 1)
            {
                best = p;
            }
        }
        best
    }

    // Where to go back to, where the learnt clause follows on the level `back`. What is taken back
    // is mostly decided again: of a long way back the last decision alone is taken back, and of
    // others no decision that comes before the one that is best by the scores.
    fn target(&self, back: u32, assumed: usize) -> u32 {
        let level = self.assignment.level;
        if (back as usize) < assumed || level.saturating_sub(back) < 2 {
            return back;
        }
        if level - back > FAR {
            return level - 1;
        }
        let best = self.best_from(word(&self.assignment.starts, back));
        let mut target = back;
        for next in back..level - 1 {
            if word(&self.assignment.starts, next) > best {
                break;
            }
            target = next + 1;
        }
        target
    }

    /// Learns from a conflict whose highest level this is.
    pub fn analyze(
        &mut self,
        conflict: Conflict,
        level: u32,
        assumed: usize,
    ) -> Result<(), AllocError> {
        self.backtrack(level);
        self.since_restart = self.since_restart.wrapping_add(1);
        let Learnt { back, glue } = self
            .analyzer
            .learn(&self.assignment, &self.arena, &mut self.scores, conflict)?;
        self.log.push(&self.analyzer.learnt, &self.analyzer.steps)?;
        self.uses.push(&self.analyzer.uses)?;
        self.scores.decay();
        let target = self.target(back, assumed);
        self.backtrack(target);
        self.add_learnt(back, glue)?;
        self.reduce()
    }

    // Decides the literal.
    fn decide(&mut self, lit: u32) -> Result<Next, AllocError> {
        self.assignment.open_level()?;
        let level = self.assignment.level;
        self.assignment.assign(lit, level, Reason::Decision);
        Ok(Next::Decided)
    }

    // Decides the first open variable of the scores, in its saved phase.
    fn decide_variable(&mut self) -> Result<Next, AllocError> {
        if self.assignment.count >= self.assignment.vars {
            return Ok(Next::Model);
        }
        for _ in 0..self.assignment.vars {
            let Some(variable) = self.scores.pop() else {
                return Ok(Next::Model);
            };
            let high = variable << 1;
            if self.assignment.value(high) == OPEN {
                self.decisions = self.decisions.wrapping_add(1);
                let phase = byte(&self.assignment.phases, variable);
                return self.decide(if phase == 1 { high } else { high | 1 });
            }
        }
        Ok(Next::Model)
    }

    // Decides the next assumption, or else a variable.
    fn decide_next(&mut self, assumptions: &[i32]) -> Result<Next, AllocError> {
        for _ in 0..assumptions.len() {
            let Some(assumption) = assumptions.get(self.assignment.level as usize) else {
                break;
            };
            let lit = code(*assumption);
            let value = self.assignment.value(lit);
            if value == FALSE {
                return Ok(Next::Fails(lit));
            }
            if value == OPEN {
                return self.decide(lit);
            }
            self.assignment.open_level()?;
        }
        self.decide_variable()
    }

    /// Starts anew where it is time to, and decides.
    pub fn next(&mut self, assumptions: &[i32]) -> Result<Next, AllocError> {
        self.restart(assumptions.len())?;
        self.decide_next(assumptions)
    }
}
