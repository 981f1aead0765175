// Clauses are added while no decision stands.
use crate::arena::given;
use crate::assignment::{FALSE, OPEN, Reason, TRUE};
use crate::cells::{byte, code};
use crate::search::Search;
use std::alloc::AllocError;

impl Search {
    // The literals that are not false, each once; or nothing where the clause holds already, with
    // a literal that stands or with two opposite ones.
    fn simplify(&mut self, lits: &[i32]) -> Result<Option<Vec<u32>>, AllocError> {
        let mut kept = Vec::new(self.alloc);
        for lit in lits {
            let lit = code(*lit);
            let variable = lit >> 1;
            let sign = if lit & 1 == 0 { 1u8 } else { 2u8 };
            let value = self.assignment.value(lit);
            let met = byte(&self.analyzer.seen, variable);
            if variable >= self.assignment.vars || value == TRUE || (met != 0 && met != sign) {
                return Ok(None);
            }
            if value == FALSE && self.log.len() > 0 {
                self.uses.push_root(variable)?;
            }
            if value == OPEN && met == 0 {
                self.analyzer.meet_as(variable, sign)?;
                kept.push(lit)?;
            }
        }
        Ok(Some(kept))
    }

    // Adds a clause of open literals, each of them once, what is left of the one with the number.
    fn add_simple(&mut self, lits: &[u32], number: u32) -> Result<(), AllocError> {
        if lits.is_empty() {
            return self.refute();
        }
        if lits.len() > 1 {
            self.attach(0, given(number), lits)?;
            return Ok(());
        }
        self.assignment.assign(lits[0], 0, Reason::Decision);
        if let Some(conflict) = self.propagate()? {
            self.refute_by(conflict)?;
        }
        Ok(())
    }

    /// Notes that the clause will come, so that there is room for its watches.
    pub fn expect(&mut self, lits: &[i32]) {
        if lits.len() > 1 {
            self.watches.expect(code(lits[0]) ^ 1);
            self.watches.expect(code(lits[1]) ^ 1);
        }
        if lits.len() == 3 {
            self.watches.expect(code(lits[2]) ^ 1);
        }
    }

    /// Adds a clause.
    pub fn add(&mut self, lits: &[i32]) -> Result<(), AllocError> {
        let number = self.added;
        self.added = number.saturating_add(1);
        if self.refuted {
            return Ok(());
        }
        self.backtrack(0);
        let simple = self.simplify(lits)?;
        self.analyzer.forget();
        if let Some(kept) = simple {
            self.add_simple(&kept, number)?;
        }
        Ok(())
    }
}
