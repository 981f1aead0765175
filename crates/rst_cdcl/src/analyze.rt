// The clause that a conflict leaves: the first unique implication point, without what follows
// from its other literals.
use crate::arena::Arena;
use crate::assignment::{Assignment, Reason};
use crate::cells::{byte, narrow, set_byte, set_word, word};
use crate::hint::{Step, last_step, step_of};
use crate::propagate::Conflict;
use crate::scores::Scores;
use crate::uses::{code_of_line, code_of_variable};
use std::alloc::{AllocError, Global};

/// The most literals that are looked at to drop one.
const MOST_STEPS: u32 = 10_000;
/// No literal.
const NOTHING: u32 = 0xFFFF_FFFF;

/// The work space of the analysis.
#[derive(Drop)]
pub struct Analyzer {
    /// By variable, whether it was met.
    pub seen: Vec<u8>,
    /// The variables that were met.
    pub seen_list: Vec<u32>,
    /// The learnt clause.
    pub learnt: Vec<u32>,
    /// What it was derived from, and the clauses in the order of the trail.
    pub uses: Vec<u32>,
    pub steps: Vec<Step>,
    stack: Vec<u32>,
    /// By level, the last conflict at which it was met.
    stamps: Vec<u32>,
    stamp: u32,
    /// How many literals of the last level are not resolved yet.
    open: u32,
}

/// Where to go back to, and the number of levels of the learnt clause.
#[derive(Clone, Copy)]
pub struct Learnt {
    pub back: u32,
    pub glue: u32,
}

// Takes the marks off these variables.
fn unmark(seen: &mut [u8], variables: &[u32]) {
    for variable in variables {
        set_byte(seen, *variable, 0);
    }
}

impl Analyzer {
    /// Nothing was met.
    pub fn new(alloc: Global, vars: u32) -> Result<Analyzer, AllocError> {
        let slots = vars as usize;
        Ok(Analyzer {
            seen: vec![in alloc; 0u8; slots]?,
            seen_list: Vec::new(alloc),
            learnt: Vec::new(alloc),
            uses: Vec::new(alloc),
            steps: Vec::new(alloc),
            stack: Vec::new(alloc),
            stamps: vec![in alloc; 0u32; slots + 1]?,
            stamp: 0,
            open: 0,
        })
    }

    /// The variable is met from now on.
    #[inline(always)]
    pub fn meet(&mut self, variable: u32) -> Result<(), AllocError> {
        set_byte(&mut self.seen, variable, 1);
        self.seen_list.push(variable)?;
        Ok(())
    }

    /// The same, with a mark of its own.
    pub fn meet_as(&mut self, variable: u32, mark: u8) -> Result<(), AllocError> {
        set_byte(&mut self.seen, variable, mark);
        self.seen_list.push(variable)?;
        Ok(())
    }

    /// A clause of the log, by its number from 1, is used.
    #[inline(always)]
    pub fn note_line(&mut self, line: u32) -> Result<(), AllocError> {
        if line != 0 {
            self.uses.push(code_of_line(line.wrapping_sub(1)))?;
        }
        Ok(())
    }

    // What made the literal true is used.
    fn note_step(
        &mut self,
        assignment: &Assignment,
        arena: &Arena,
        lit: u32,
    ) -> Result<(), AllocError> {
        if let Some(step) = step_of(assignment, arena, lit) {
            self.steps.push(step)?;
        }
        Ok(())
    }

    /// The value of a variable that no decision led to is used.
    pub fn note_root(&mut self, variable: u32) -> Result<(), AllocError> {
        if byte(&self.seen, variable) == 0 {
            self.meet(variable)?;
            self.uses.push(code_of_variable(variable))?;
        }
        Ok(())
    }

    /// No variable is met any more.
    pub fn forget(&mut self) {
        unmark(&mut self.seen, &self.seen_list);
        self.seen_list.clear();
    }

    // Takes in a false literal.
    fn analyze_literal(
        &mut self,
        assignment: &Assignment,
        scores: &mut Scores,
        lit: u32,
    ) -> Result<(), AllocError> {
        let variable = lit >> 1;
        let level = assignment.level_of(variable);
        if byte(&self.seen, variable) != 0 {
            return Ok(());
        }
        if level == 0 {
            return self.note_root(variable);
        }
        self.meet(variable)?;
        scores.bump(variable)?;
        if level >= assignment.level {
            self.open = self.open.wrapping_add(1);
        } else {
            self.learnt.push(lit)?;
        }
        Ok(())
    }

    // Takes in the other literals of a clause.
    fn analyze_clause(
        &mut self,
        assignment: &Assignment,
        arena: &Arena,
        scores: &mut Scores,
        clause: u32,
        but: u32,
    ) -> Result<(), AllocError> {
        self.note_line(arena.line(clause))?;
        for lit in arena.lits(clause) {
            if *lit != but {
                self.analyze_literal(assignment, scores, *lit)?;
            }
        }
        Ok(())
    }

    // Takes in what made the literal true.
    fn analyze_reason(
        &mut self,
        assignment: &Assignment,
        arena: &Arena,
        scores: &mut Scores,
        lit: u32,
    ) -> Result<(), AllocError> {
        self.note_step(assignment, arena, lit)?;
        match assignment.origin(lit >> 1).reason {
            Reason::Decision | Reason::Learnt(_) => Ok(()),
            Reason::Binary(other) => self.analyze_literal(assignment, scores, other),
            Reason::Ternary(one, other) => {
                self.analyze_literal(assignment, scores, one)?;
                self.analyze_literal(assignment, scores, other)
            }
            Reason::Clause(clause) => self.analyze_clause(assignment, arena, scores, clause, lit),
        }
    }

    // Takes in what is false.
    fn analyze_conflict(
        &mut self,
        assignment: &Assignment,
        arena: &Arena,
        scores: &mut Scores,
        conflict: Conflict,
    ) -> Result<(), AllocError> {
        match conflict {
            Conflict::Binary(one, other) => {
                self.analyze_literal(assignment, scores, one)?;
                self.analyze_literal(assignment, scores, other)
            }
            Conflict::Ternary(one, other, third) => {
                self.analyze_literal(assignment, scores, one)?;
                self.analyze_literal(assignment, scores, other)?;
                self.analyze_literal(assignment, scores, third)
            }
            Conflict::Clause(clause) => self.analyze_clause(
                assignment, arena, scores, clause, NOTHING,
            ),
        }
    }

    // Resolves the literals of the last level but one.
    fn resolve(
        &mut self,
        assignment: &Assignment,
        arena: &Arena,
        scores: &mut Scores,
    ) -> Result<(), AllocError> {
        for p in (0..assignment.count).rev() {
            let lit = word(&assignment.trail, p);
            if byte(&self.seen, lit >> 1) == 0 || assignment.level_of(lit >> 1) < assignment.level {
                continue;
            }
            self.open = self.open.wrapping_sub(1);
            if self.open == 0 {
                set_word(&mut self.learnt, 0, lit ^ 1);
                return Ok(());
            }
            self.analyze_reason(assignment, arena, scores, lit)?;
        }
        Ok(())
    }

    // The number of levels of the learnt clause, which are stamped.
    fn glue(&mut self, assignment: &Assignment) -> u32 {
        self.stamp = self.stamp.wrapping_add(1);
        let mut glue = 0u32;
        for k in 0..self.learnt.len() {
            let level = assignment.level_of(self.learnt[k] >> 1);
            if word(&self.stamps, level) != self.stamp {
                set_word(&mut self.stamps, level, self.stamp);
                glue = glue.wrapping_add(1);
            }
        }
        glue
    }

    // Whether the variable was met, or may follow from those that were: then it waits.
    #[inline(always)]
    fn may_follow(&mut self, assignment: &Assignment, variable: u32) -> Result<bool, AllocError> {
        let origin = assignment.origin(variable);
        if byte(&self.seen, variable) != 0 {
            return Ok(true);
        }
        if origin.level == 0 {
            self.note_root(variable)?;
            return Ok(true);
        }
        if matches!(origin.reason, Reason::Decision)
            || word(&self.stamps, origin.level) != self.stamp
        {
            return Ok(false);
        }
        self.meet(variable)?;
        self.stack.push(variable)?;
        Ok(true)
    }

    // Whether all that made the variable's literal true may follow.
    fn may_all_follow(
        &mut self,
        assignment: &Assignment,
        arena: &Arena,
        variable: u32,
    ) -> Result<bool, AllocError> {
        self.note_step(assignment, arena, assignment.standing(variable))?;
        match assignment.origin(variable).reason {
            Reason::Decision | Reason::Learnt(_) => Ok(false),
            Reason::Binary(other) => self.may_follow(assignment, other >> 1),
            Reason::Ternary(one, other) => {
                let follows = self.may_follow(assignment, one >> 1)?;
                Ok(follows && self.may_follow(assignment, other >> 1)?)
            }
            Reason::Clause(clause) => {
                self.note_line(arena.line(clause))?;
                for lit in arena.lits(clause) {
                    if *lit >> 1 != variable && !self.may_follow(assignment, *lit >> 1)? {
                        return Ok(false);
                    }
                }
                Ok(true)
            }
        }
    }

    // Whether the variable's literal follows from others of the learnt clause.
    fn is_redundant(
        &mut self,
        assignment: &Assignment,
        arena: &Arena,
        variable: u32,
    ) -> Result<bool, AllocError> {
        self.stack.clear();
        self.stack.push(variable)?;
        for _ in 0..MOST_STEPS {
            let Some(next) = self.stack.pop() else {
                return Ok(true);
            };
            if !self.may_all_follow(assignment, arena, next)? {
                return Ok(false);
            }
        }
        Ok(false)
    }

    // Forgets the variables that were met since.
    fn forget_since(&mut self, before: usize) {
        if before <= self.seen_list.len() {
            unmark(&mut self.seen, &self.seen_list[before..]);
        }
        self.seen_list.truncate(before);
    }

    // Drops what follows from other literals of the learnt clause.
    fn minimize(&mut self, assignment: &Assignment, arena: &Arena) -> Result<(), AllocError> {
        let mut kept = 1u32;
        for k in 1..narrow(self.learnt.len()) {
            let lit = word(&self.learnt, k);
            let before = self.seen_list.len();
            let used = self.uses.len();
            let steps = self.steps.len();
            if !self.is_redundant(assignment, arena, lit >> 1)? {
                self.forget_since(before);
                self.uses.truncate(used);
                self.steps.truncate(steps);
                set_word(&mut self.learnt, kept, lit);
                kept = kept.wrapping_add(1);
            }
        }
        self.learnt.truncate(kept as usize);
        Ok(())
    }

    // Puts a literal of the highest level but the last second. Its level.
    fn put_second(&mut self, assignment: &Assignment) -> u32 {
        let mut best = 1u32;
        let mut highest = 0u32;
        for k in 1..narrow(self.learnt.len()) {
            let level = assignment.level_of(word(&self.learnt, k) >> 1);
            if level > highest {
                highest = level;
                best = k;
            }
        }
        let second = word(&self.learnt, 1);
        let chosen = word(&self.learnt, best);
        set_word(&mut self.learnt, 1, chosen);
        set_word(&mut self.learnt, best, second);
        highest
    }

    /// Learns a clause from a conflict.
    pub fn learn(
        &mut self,
        assignment: &Assignment,
        arena: &Arena,
        scores: &mut Scores,
        conflict: Conflict,
    ) -> Result<Learnt, AllocError> {
        self.open = 0;
        self.uses.clear();
        self.steps.clear();
        self.learnt.clear();
        self.learnt.push(0)?;
        self.analyze_conflict(assignment, arena, scores, conflict)?;
        self.resolve(assignment, arena, scores)?;
        let glue = self.glue(assignment);
        self.minimize(assignment, arena)?;
        self.steps.sort_unstable_by_key(|step| step.place);
        self.steps.push(last_step(arena, conflict))?;
        let back = self.put_second(assignment);
        self.forget();
        Ok(Learnt { back, glue })
    }
}
