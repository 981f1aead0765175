// The clauses at the begin of a replay.
ghost use Rattle.std.specs.Prelude.{◌≡◌, ◌≤◌, ◌<◌, ◌++◌, ℕ, ℤ, List, [], ◌∷◌, length, IfOk, OnOk, true, false, take};
ghost use Rattle.rst_clause.specs.Literals.{AreClauses};
ghost use Rattle.rst_clause.specs.Propagation.{Closes, AllDerived};
ghost use Rattle.rst_clause.specs.Passes.{clauses_of};
ghost use Rattle.rst_watch.specs.Propagators.{IsSettled};

use rst_clause::{ClauseStore, Clauses};
use rst_outside::NoMemory;
use rst_watch::Propagator;

// Adds the clauses of a list, until one is false. Whether one is.
fn add_all(p: &mut Propagator, clauses: &ClauseStore) -> Result<bool, NoMemory>
    requires in_range { AreClauses p.old.trail.vars clauses.now }
    requires root { p.old.floors ≡ [] }
    requires implied { AllDerived p.old.clauses p.old.trail.lits }
    ensures closes { IfOk result (λ yes. yes ≡ true → Closes (p.old.clauses ++ clauses.now)) }
    ensures clauses { IfOk result (λ yes. yes ≡ false → p.new.clauses ≡ p.old.clauses ++ clauses.now) }
    ensures implied { IfOk result (λ yes. yes ≡ false → AllDerived p.new.clauses p.new.trail.lits) }
    ensures vars { p.new.trail.vars ≡ p.old.trail.vars }
    ensures root { p.new.floors ≡ [] }
{
    for i in 0..clauses.len() {
        if p.learn(clauses.get(i))? {
            return Ok(true);
        }
    }
    Ok(false)
}

/// Adds the clauses, the fixed ones and then the required ones, and what they imply, where there
/// is none. Whether one is false.
pub fn load(p: &mut Propagator, clauses: &Clauses) -> Result<bool, NoMemory>
    requires vars { p.old.trail.vars ≡ clauses.now.vars }
    requires nothing { p.old.trail.lits ≡ [] }
    requires none { p.old.clauses ≡ [] }
    requires root { p.old.floors ≡ [] }
    ensures closes { IfOk result (λ yes. yes ≡ true → Closes (clauses_of clauses.now)) }
    ensures clauses { IfOk result (λ yes. yes ≡ false → p.new.clauses ≡ clauses_of clauses.now) }
    ensures implied { IfOk result (λ yes. yes ≡ false → AllDerived p.new.clauses p.new.trail.lits) }
    ensures settled { IfOk result (λ yes. yes ≡ false → IsSettled p.new) }
    ensures vars { OnOk result (p.new.trail.vars ≡ p.old.trail.vars) }
    ensures root { p.new.floors ≡ [] }
{
    if add_all(p, &clauses.fixed)? {
        return Ok(true);
    }
    if add_all(p, &clauses.required)? {
        return Ok(true);
    }
    let found = p.propagate()?;
    match found {
        Some(_) => Ok(true),
        None => Ok(false),
    }
}
