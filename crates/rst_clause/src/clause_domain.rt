ghost use Rattle.std.specs.Prelude.{◌≡◌, ℕ, suc, ◌+◌, ◌-◌, ◌^◌, ◌<◌, ◌≤◌, ℤ, pos, Bool, false, List, Some, IfOk, OnErr, OnOk, ◌++◌, [], ◌∷◌, slice_index_or, unsigned_abs};
ghost use Rattle.rst_clause.specs.Literals.{AreLiterals, IsLiteral};
ghost use Rattle.rst_clause.specs.Operations.{denies_next};
ghost use Rattle.rst_clause.specs.Standing.{StandsUnder};
ghost use Rattle.rst_clause.specs.Results.{Aside, clause_results};

use crate::gate_clauses::{of_and, of_mux, of_xor};
use crate::{ClauseStore, Clauses, Lit};
use rst_outside::NoMemory;
use rst_value::Domain;
use std::alloc::Global;

/// Literals as a domain: a gate takes the next variable and adds the clauses that define it
/// (Tseitin's encoding). A world is a choice of the free bits.
///
/// Its content is the list of the fixed clauses. It keeps aside how many bits are free, and the
/// required clauses: no gate changes them. After NoMemory every literal stands for what it stood
/// for.
#[derive(Debug, Drop)]
pub struct ClauseDomain {
    alloc: Global,
    /// The clauses so far.
    pub clauses: Clauses,
}

impl ClauseDomain {
    /// The domain over the free bits 1 to `free`, whose one further variable is false.
    pub fn new(alloc: Global, free: u32) -> Result<ClauseDomain, NoMemory>
        requires { free < 2 ^ 30 }
        ensures free { IfOk result (λ d. d.clauses.free ≡ free) }
        ensures vars { IfOk result (λ d. d.clauses.vars ≡ free + 1) }
        ensures fixed { IfOk result (λ d. d.clauses.fixed ≡ denies_next free ∷ []) }
        ensures required { IfOk result (λ d. d.clauses.required ≡ []) }
    {
        let mut fixed = ClauseStore::new(alloc);
        fixed.push(&[Lit::of_variable(free + 1).opposite()])?;
        let clauses = Clauses {
            free,
            vars: free + 1,
            fixed,
            required: ClauseStore::new(alloc),
        };
        Ok(ClauseDomain { alloc, clauses })
    }

    /// The literal of the free bit at the place, from 0. It stands for that bit of the world.
    pub fn free_bit(&self, i: u32) -> Lit
        requires { i < self.now.clauses.free }
        ensures value { result ≡ pos (i + 1) }
        ensures held { IsLiteral self.now.clauses.vars result }
        ensures stands { (world : List Bool) → StandsUnder self.now.clauses.free self.now.clauses.fixed world result (slice_index_or world i false) }
    {
        Lit::of_variable(i + 1)
    }

    /// Asks that one of the literals holds. It adds a clause to the required ones, and leaves what
    /// every literal stands for; after NoMemory nothing is asked.
    pub fn require(&mut self, lits: &[Lit]) -> Result<(), NoMemory>
        requires { AreLiterals self.old.clauses.vars lits.now }
        ensures ok { OnOk result (self.new.clauses.required ≡ self.old.clauses.required ++ lits.now ∷ []) }
        ensures err { OnErr result (self.new.clauses.required ≡ self.old.clauses.required) }
        ensures fixed { self.new.clauses.fixed ≡ self.old.clauses.fixed }
        ensures vars { self.new.clauses.vars ≡ self.old.clauses.vars }
        ensures free { self.new.clauses.free ≡ self.old.clauses.free }
    {
        self.clauses.require(lits)?;
        Ok(())
    }

    /// The clauses.
    pub fn finish(self) -> Clauses
        ensures { result ≡ self.clauses }
    {
        self.clauses
    }
}

impl Domain for ClauseDomain {
    type Val = Lit;

    ghost stands = { λ d world l bit. StandsUnder d.clauses.free d.clauses.fixed world l bit };

    ghost content = { λ d. d.clauses.fixed };

    ghost Aside = { Aside };

    ghost aside = { λ d. record { free = d.clauses.free; required = d.clauses.required } };

    ghost named = { clause_results };

    ghost held = { λ d l. IsLiteral d.clauses.vars l };

    ghost spare = { λ d. Some (2 ^ 31 - 1 - d.clauses.vars) };

    fn constant(&mut self, bit: bool) -> Result<Lit, NoMemory> {
        let low = Lit::of_variable(self.clauses.free + 1);
        Ok(if bit { low.opposite() } else { low })
    }

    fn not(&mut self, a: Lit) -> Result<Lit, NoMemory> {
        Ok(a.opposite())
    }

    fn and(&mut self, a: Lit, b: Lit) -> Result<Lit, NoMemory> {
        let z = Lit::of_variable(self.clauses.vars + 1);
        let gate = of_and(self.alloc, z, a, b)?;
        self.clauses.define(&gate)?;
        Ok(z)
    }

    fn xor(&mut self, a: Lit, b: Lit) -> Result<Lit, NoMemory> {
        let z = Lit::of_variable(self.clauses.vars + 1);
        let gate = of_xor(self.alloc, z, a, b)?;
        self.clauses.define(&gate)?;
        Ok(z)
    }

    fn mux(&mut self, select: Lit, one: Lit, zero: Lit) -> Result<Lit, NoMemory> {
        let z = Lit::of_variable(self.clauses.vars + 1);
        let gate = of_mux(self.alloc, z, select, one, zero)?;
        self.clauses.define(&gate)?;
        Ok(z)
    }
}
