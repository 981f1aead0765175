// A query under construction.
ghost use Rattle.std.specs.Prelude.{◌+◌, ◌<◌, ◌^◌, IsTrue};
ghost use Rattle.rst_clause.specs.Literals.{IsLiteral, AreLiterals};

use rst_clause::{ClauseDomain, Clauses, Lit};
use rst_outside::NoMemory;
use rst_value::Domain;
use std::alloc::Global;

/// A query under construction. A line that names a variable which is not there yet is left out.
#[derive(Drop)]
pub struct Posing {
    domain: ClauseDomain,
}

impl Posing {
    /// No gate over so many free bits.
    pub fn new(alloc: Global, free: u32) -> Result<Posing, NoMemory> {
        if free >= 1_073_741_824 {
            return Err(NoMemory);
        }
        let domain = ClauseDomain::new(alloc, free)?;
        Ok(Posing { domain })
    }

    // Whether the literal is one of the query, and there is room for another variable.
    fn has(&self, lit: Lit) -> bool
        ensures held { IsTrue result → IsLiteral self.now.domain.clauses.vars lit }
        ensures room { IsTrue result → self.now.domain.clauses.vars + 1 < 2 ^ 31 }
    {
        let vars = self.domain.clauses.vars;
        lit.variable() <= vars && vars < 2_147_483_646
    }

    // Whether all the literals are ones of the query.
    fn has_all(&self, lits: &[Lit]) -> bool
        ensures { IsTrue result → AreLiterals self.now.domain.clauses.vars lits.now }
    {
        for i in 0..lits.len() {
            let lit = lits[i];
            if lit.variable() > self.domain.clauses.vars {
                return false;
            }
        }
        true
    }

    /// The next variable is the conjunction.
    pub fn and(&mut self, a: Lit, b: Lit) -> Result<(), NoMemory> {
        if self.has(a) && self.has(b) {
            let _z = self.domain.and(a, b)?;
        }
        Ok(())
    }

    /// The next variable is the exclusive or.
    pub fn xor(&mut self, a: Lit, b: Lit) -> Result<(), NoMemory> {
        if self.has(a) && self.has(b) {
            let _z = self.domain.xor(a, b)?;
        }
        Ok(())
    }

    /// The next variable is `one` where `select` holds, and `zero` elsewhere.
    pub fn mux(&mut self, select: Lit, one: Lit, zero: Lit) -> Result<(), NoMemory> {
        if self.has(select) && self.has(one) && self.has(zero) {
            let _z = self.domain.mux(select, one, zero)?;
        }
        Ok(())
    }

    /// One of the literals is to hold.
    pub fn require(&mut self, lits: &[Lit]) -> Result<(), NoMemory> {
        if self.has_all(lits) {
            self.domain.require(lits)?;
        }
        Ok(())
    }

    /// The clauses.
    pub fn finish(self) -> Clauses {
        self.domain.finish()
    }
}
