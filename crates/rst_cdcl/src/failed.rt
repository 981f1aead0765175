// The assumptions that are refuted together.
use crate::arena::HEADER;
use crate::assignment::Reason;
use crate::cells::{byte, code, number, word};
use crate::hint::step_of;
use crate::search::Search;
use std::alloc::AllocError;

impl Search {
    // Meets the literal's variable; notes it where no decision led to its value.
    fn meet(&mut self, lit: u32) -> Result<(), AllocError> {
        let variable = lit >> 1;
        if self.assignment.level_of(variable) == 0 {
            return self.analyzer.note_root(variable);
        }
        self.analyzer.meet(variable)
    }

    // Meets what made the variable's literal true; notes it where it was assumed.
    fn trace(&mut self, lit: u32, core: &mut Vec<i32>) -> Result<(), AllocError> {
        if let Some(step) = step_of(&self.assignment, &self.arena, lit) {
            self.analyzer.steps.push(step)?;
        }
        match self.assignment.origin(lit >> 1).reason {
            Reason::Decision => core.push(number(lit))?,
            Reason::Learnt(_) => {}
            Reason::Binary(other) => self.meet(other)?,
            Reason::Ternary(one, other) => {
                self.meet(one)?;
                self.meet(other)?;
            }
            Reason::Clause(clause) => {
                self.analyzer.note_line(self.arena.line(clause))?;
                for k in 0..self.arena.size(clause) {
                    let other = word(
                        &self.arena.words,
                        clause.wrapping_add(HEADER).wrapping_add(k),
                    );
                    self.meet(other)?;
                }
            }
        }
        Ok(())
    }

    // The assumptions that make this one false, and itself.
    fn core(&mut self, fails: u32) -> Result<Vec<i32>, AllocError> {
        let mut core = Vec::new(self.alloc);
        core.push(number(fails))?;
        self.analyzer.uses.clear();
        self.analyzer.steps.clear();
        self.meet(fails)?;
        let floor = word(&self.assignment.starts, 0);
        let end = if self.assignment.level == 0 {
            floor
        } else {
            self.assignment.count
        };
        for p in (floor..end).rev() {
            let lit = word(&self.assignment.trail, p);
            let variable = lit >> 1;
            if byte(&self.analyzer.seen, variable) != 0 && self.assignment.level_of(variable) > 0 {
                self.trace(lit, &mut core)?;
            }
        }
        self.analyzer.steps.reverse();
        self.analyzer.forget();
        Ok(core)
    }

    /// Learns that the assumptions which make this one false, and itself, have no solution. These.
    pub fn refute_failed(&mut self, fails: u32) -> Result<Vec<i32>, AllocError> {
        let core = self.core(fails)?;
        let mut clause = Vec::with_capacity(self.alloc, core.len())?;
        for lit in &core {
            clause.push(code(*lit) ^ 1)?;
        }
        self.learn_line(&clause)?;
        Ok(core)
    }
}
