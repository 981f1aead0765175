// What each learnt clause was derived from, and which clauses the last one needs.
use crate::arena::Arena;
use crate::assignment::{Assignment, Reason};
use crate::cells::{byte, narrow, set_byte, set_word};
use crate::log::Log;
use std::alloc::{AllocError, Global};

/// For each learnt clause the learnt clauses that it was derived from, and the variables without a
/// decision whose values it rests on: twice a clause's number, or twice a variable and 1 more.
#[derive(Drop)]
pub struct Uses {
    codes: Vec<u32>,
    ends: Vec<usize>,
    /// Variables whose values clauses were shortened by, after the first learnt clause.
    roots: Vec<u32>,
}

/// The code of a learnt clause.
pub fn code_of_line(line: u32) -> u32 {
    line << 1
}

/// The code of a variable.
pub fn code_of_variable(variable: u32) -> u32 {
    (variable << 1) | 1
}

// What is known to be needed.
#[derive(Drop)]
struct Needs {
    /// By learnt clause and by variable: 1 if it is needed.
    lines: Vec<u8>,
    variables: Vec<u8>,
    // Variables that are needed, and whose reasons were not looked at.
    waiting: Vec<u32>,
}

impl Needs {
    // The learnt clause, or the variable, is needed.
    fn need(&mut self, code: u32) -> Result<(), AllocError> {
        let at = code >> 1;
        if code & 1 == 0 {
            set_byte(&mut self.lines, at, 1);
        } else if byte(&self.variables, at) == 0 {
            set_byte(&mut self.variables, at, 1);
            self.waiting.push(at)?;
        }
        Ok(())
    }

    // What a clause is, and what its literals rest on, is needed.
    fn need_clause(&mut self, arena: &Arena, clause: u32) -> Result<(), AllocError> {
        let line = arena.line(clause);
        if line != 0 {
            self.need(code_of_line(line.wrapping_sub(1)))?;
        }
        for lit in arena.lits(clause) {
            self.need(code_of_variable(*lit >> 1))?;
        }
        Ok(())
    }

    // What the values of the variables that wait rest on is needed.
    fn trace(&mut self, assignment: &Assignment, arena: &Arena) -> Result<(), AllocError> {
        for _ in 0..assignment.vars {
            let Some(variable) = self.waiting.pop() else {
                return Ok(());
            };
            match assignment.origin(variable).reason {
                Reason::Decision => {}
                Reason::Learnt(line) => self.need(code_of_line(line))?,
                Reason::Binary(other) => self.need(code_of_variable(other >> 1))?,
                Reason::Ternary(one, other) => {
                    self.need(code_of_variable(one >> 1))?;
                    self.need(code_of_variable(other >> 1))?;
                }
                Reason::Clause(clause) => self.need_clause(arena, clause)?,
            }
        }
        Ok(())
    }
}

impl Uses {
    /// Of no learnt clause.
    pub fn new(alloc: Global) -> Uses {
        Uses {
            codes: Vec::new(alloc),
            ends: Vec::new(alloc),
            roots: Vec::new(alloc),
        }
    }

    /// Those of the next learnt clause.
    pub fn push(&mut self, codes: &[u32]) -> Result<(), AllocError> {
        self.codes.extend_from_slice(codes)?;
        self.ends.push(self.codes.len())?;
        Ok(())
    }

    /// A clause was shortened by the value of the variable.
    pub fn push_root(&mut self, variable: u32) -> Result<(), AllocError> {
        self.roots.push(variable)?;
        Ok(())
    }

    // Those of the learnt clause.
    fn get(&self, line: usize) -> &[u32] {
        let start = if line == 0 {
            0
        } else {
            self.ends.get(line - 1).copied().unwrap_or(0)
        };
        let end = self.ends.get(line).copied().unwrap_or(0);
        if start <= end && end <= self.codes.len() {
            &self.codes[start..end]
        } else {
            &[]
        }
    }

    // For each learnt clause whether the last one needs it.
    fn needed(
        &self,
        alloc: Global,
        assignment: &Assignment,
        arena: &Arena,
    ) -> Result<Vec<u8>, AllocError> {
        let count = self.ends.len();
        let mut needs = Needs {
            lines: vec![in alloc; 0u8; count]?,
            variables: vec![in alloc; 0u8; assignment.vars as usize]?,
            waiting: Vec::new(alloc),
        };
        for variable in &self.roots {
            needs.need(code_of_variable(*variable))?;
        }
        needs.need(code_of_line(narrow(count).wrapping_sub(1)))?;
        needs.trace(assignment, arena)?;
        for line in (0..count).rev() {
            if byte(&needs.lines, narrow(line)) != 0 {
                for code in self.get(line) {
                    needs.need(*code)?;
                }
                needs.trace(assignment, arena)?;
            }
        }
        Ok(needs.lines)
    }

    /// The clauses of the log that the last one needs, and itself.
    pub fn trimmed(
        &self,
        alloc: Global,
        assignment: &Assignment,
        arena: &Arena,
        log: &Log,
    ) -> Result<Log, AllocError> {
        let needed = self.needed(alloc, assignment, arena)?;
        let mut places = vec![in alloc; 0u32; log.len()]?;
        let mut kept = Log::new(alloc);
        for line in 0..log.len() {
            if byte(&needed, narrow(line)) != 0 {
                set_word(&mut places, narrow(line), narrow(kept.len()));
                kept.push_moved(log, line, &places)?;
            }
        }
        Ok(kept)
    }
}
