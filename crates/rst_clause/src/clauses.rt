ghost use Rattle.std.specs.Prelude.{◌≡◌, ◌+◌, ◌<◌, ◌^◌, [], ◌∷◌, ◌++◌, IfOk, OnOk, OnErr};
ghost use Rattle.rst_clause.specs.Literals.{AreLiterals, AreClauses};
ghost use Rattle.rst_clause.specs.Operations.{IsDefined, IsGateBehind};

use crate::{ClauseStore, IndexedClauses, Lit};
use rst_outside::NoMemory;
use std::alloc::Global;

/// Clauses over the variables 1 to `vars`, of which 1 to `free` are the free bits.
///
/// `fixed` has the clause that makes the variable `free + 1` false and then, for each further
/// variable in order, the clauses of one gate over earlier variables. So each choice of the free
/// bits extends in exactly one way. `required` has what is asked of the choice.
#[derive(Debug, Drop)]
pub struct Clauses {
    pub free: u32,
    pub vars: u32,
    pub fixed: ClauseStore,
    pub required: ClauseStore,
    pub ghost few: { vars < 2 ^ 31 },
    pub ghost below: { free < vars },
    pub ghost defined: { ∥ IsDefined free vars fixed ∥₁ },
    pub ghost in_range: { AreClauses vars required },
}

// Adds the clauses of a list at the end.
fn add_all(all: &mut IndexedClauses, clauses: &ClauseStore) -> Result<(), NoMemory>
    ensures { OnOk result (all.new ≡ all.old ++ clauses.now) }
{
    for i in 0..clauses.len() {
        all.push(clauses.get(i))?;
    }
    Ok(())
}

impl Clauses {
    /// All the clauses in one list: the fixed ones, then the required ones.
    pub fn all(&self, alloc: Global) -> Result<IndexedClauses, NoMemory>
        ensures same { IfOk result (λ all. all ≡ self.now.fixed ++ self.now.required) }
        ensures in_range { AreClauses self.now.vars (self.now.fixed ++ self.now.required) }
        ensures few { self.now.vars < 2 ^ 31 }
    {
        let mut all = IndexedClauses::new(alloc);
        add_all(&mut all, &self.fixed)?;
        add_all(&mut all, &self.required)?;
        Ok(all)
    }

    // Adds the clauses of a gate whose result is the next variable, all or none of them.
    pub(crate) fn define(&mut self, gate: &ClauseStore) -> Result<(), NoMemory>
        requires room { self.old.vars + 1 < 2 ^ 31 }
        requires next { IsGateBehind self.old.vars gate.now }
        ensures ok { OnOk result (self.new.fixed ≡ self.old.fixed ++ gate.now) }
        ensures ok_vars { OnOk result (self.new.vars ≡ self.old.vars + 1) }
        ensures err { OnErr result (self.new.fixed ≡ self.old.fixed) }
        ensures err_vars { OnErr result (self.new.vars ≡ self.old.vars) }
        ensures free { self.new.free ≡ self.old.free }
        ensures required { self.new.required ≡ self.old.required }
    {
        self.fixed.append(gate)?;
        self.vars += 1;
        Ok(())
    }

    // Asks that one of the literals holds.
    pub(crate) fn require(&mut self, lits: &[Lit]) -> Result<(), NoMemory>
        requires { AreLiterals self.old.vars lits.now }
        ensures ok { OnOk result (self.new.required ≡ self.old.required ++ lits.now ∷ []) }
        ensures err { OnErr result (self.new.required ≡ self.old.required) }
        ensures fixed { self.new.fixed ≡ self.old.fixed }
        ensures vars { self.new.vars ≡ self.old.vars }
        ensures free { self.new.free ≡ self.old.free }
    {
        self.required.push(lits)?;
        Ok(())
    }
}
