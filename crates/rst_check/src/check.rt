ghost use Rattle.std.specs.Prelude.{◌≡◌, ◌≤◌, ◌<◌, ◌^◌, ◌↔◌, ◌++◌, ℕ, ℤ, List, [], ◌∷◌, length, IfOk, OnOk, IsTrue, slice_index_or, take, true, false};
ghost use Rattle.rst_clause.specs.Literals.{AreLiterals, AreClauses};
ghost use Rattle.rst_clause.specs.Propagation.{Follows, Closes, AllDerived};
ghost use Rattle.rst_clause.specs.Passes.{Passes, clauses_of};
ghost use Rattle.rst_watch.specs.Propagators.{IsSettled};
ghost use Rattle.rst_check.specs.Lines.{EachFollows, HasFalse, IsGrown, IsLonger, IsBack};

use crate::hints::Hints;
use crate::load::load;
use crate::range::are_in_range;
use rst_clause::{Clauses, Lit, Log};
use rst_outside::NoMemory;
use rst_watch::Propagator;
use std::alloc::Global;

// Looks at the clauses of these numbers one after another, until one is false. Whether one is.
fn has_false(p: &mut Propagator, hints: &[u32]) -> Result<bool, NoMemory>
    ensures grown { IsGrown p.old p.new }
    ensures is_false { IfOk result (λ yes. yes ≡ true → HasFalse p.old.clauses p.new.trail.lits) }
{
    for i in 0..hints.len() {
        if p.apply(hints[i] as usize)? {
            return Ok(true);
        }
    }
    Ok(false)
}

// Whether propagation contradicts the line: what stands is what the clauses imply, the opposites
// of the line's literals are assumed, and a clause is false, one of the hints or one that
// propagation finds.
fn contradicts(p: &mut Propagator, line: &[Lit], hints: &[u32]) -> Result<bool, NoMemory>
    requires few { p.old.trail.vars < 2 ^ 31 }
    requires in_range { AreLiterals p.old.trail.vars line.now }
    requires implied { AllDerived p.old.clauses p.old.trail.lits }
    ensures answer { IfOk result (λ yes. IsTrue yes ↔ Follows p.old.clauses line.now) }
    ensures longer { OnOk result (IsLonger p.old p.new) }
{
    for i in 0..line.len() {
        let lit = line[i];
        if p.has(lit) {
            return Ok(true);
        }
        let no = lit.opposite();
        if !p.has(no) {
            p.assume(no)?;
        }
    }
    if has_false(p, hints)? {
        return Ok(true);
    }
    let found = p.propagate()?;
    match found {
        Some(_) => Ok(true),
        None => Ok(false),
    }
}

// Whether the line follows by unit propagation from the clauses, on a level of its own. What
// stands is what they imply, and it still stands afterwards.
fn follows(p: &mut Propagator, line: &[Lit], hints: &[u32]) -> Result<bool, NoMemory>
    requires few { p.old.trail.vars < 2 ^ 31 }
    requires in_range { AreLiterals p.old.trail.vars line.now }
    requires implied { AllDerived p.old.clauses p.old.trail.lits }
    requires settled { IsSettled p.old }
    ensures answer { IfOk result (λ yes. IsTrue yes ↔ Follows p.old.clauses line.now) }
    ensures back { OnOk result (IsBack p.old p.new) }
{
    p.open()?;
    let yes = contradicts(p, line, hints)?;
    p.back();
    Ok(yes)
}

// Adds a line that follows, and what it implies. Whether a clause is false now.
fn learns(p: &mut Propagator, line: &[Lit]) -> Result<bool, NoMemory>
    requires in_range { AreLiterals p.old.trail.vars line.now }
    requires root { p.old.floors ≡ [] }
    requires implied { AllDerived p.old.clauses p.old.trail.lits }
    ensures closes { IfOk result (λ yes. yes ≡ true → Closes (p.old.clauses ++ line.now ∷ [])) }
    ensures clauses { IfOk result (λ yes. yes ≡ false → p.new.clauses ≡ p.old.clauses ++ line.now ∷ []) }
    ensures implied { IfOk result (λ yes. yes ≡ false → AllDerived p.new.clauses p.new.trail.lits) }
    ensures settled { IfOk result (λ yes. yes ≡ false → IsSettled p.new) }
    ensures vars { OnOk result (p.new.trail.vars ≡ p.old.trail.vars) }
    ensures root { p.new.floors ≡ [] }
{
    if p.learn(line)? {
        return Ok(true);
    }
    let found = p.propagate()?;
    match found {
        Some(_) => Ok(true),
        None => Ok(false),
    }
}

// Whether each line of the log follows from the clauses and the earlier lines. They are added, and
// what they imply stands, until a clause is false: then each further line follows.
fn all_follow(p: &mut Propagator, log: &Log, hints: &Hints) -> Result<bool, NoMemory>
    requires few { p.old.trail.vars < 2 ^ 31 }
    requires in_range { AreClauses p.old.trail.vars log.now }
    requires root { p.old.floors ≡ [] }
    requires implied { AllDerived p.old.clauses p.old.trail.lits }
    requires settled { IsSettled p.old }
    ensures { IfOk result (λ yes. IsTrue yes ↔ EachFollows p.old.clauses log.now) }
{
    for i in 0..log.len() {
        let line = log.get(i);
        if !follows(p, line.as_slice(), hints.get(i))? {
            return Ok(false);
        }
        if learns(p, line.as_slice())? {
            return Ok(true);
        }
    }
    Ok(true)
}

// Whether each line of the log follows from the clauses and the earlier lines, where nothing is
// known yet.
fn replay(p: &mut Propagator, clauses: &Clauses, log: &Log, hints: &Hints) -> Result<bool, NoMemory>
    requires vars { p.old.trail.vars ≡ clauses.now.vars }
    requires few { p.old.trail.vars < 2 ^ 31 }
    requires in_range { AreClauses p.old.trail.vars log.now }
    requires nothing { p.old.trail.lits ≡ [] }
    requires none { p.old.clauses ≡ [] }
    requires root { p.old.floors ≡ [] }
    ensures { IfOk result (λ yes. IsTrue yes ↔ EachFollows (clauses_of clauses.now) log.now) }
{
    if load(p, clauses)? {
        return Ok(true);
    }
    let yes = all_follow(p, log, hints)?;
    Ok(yes)
}

// Whether the last line is there and has no literal.
fn ends_empty(log: &Log) -> bool
    ensures { IsTrue result ↔ ((earlier : List (List ℤ)) × (log.now ≡ earlier ++ [] ∷ [])) }
{
    log.len() > 0 && log.get(log.len() - 1).len() == 0
}

/// Whether the log refutes the clauses: every literal of the log is in range, each line follows by
/// unit propagation from the clauses and the earlier lines, and the last line is the empty clause.
/// Where it does, the clauses have no solution. NoMemory where there is no memory for a copy of
/// the clauses.
pub fn refutes(alloc: Global, clauses: &Clauses, log: &Log) -> Result<bool, NoMemory>
    ensures { IfOk result (λ yes. IsTrue yes ↔ Passes clauses.now log.now) }
{
    let hints = Hints::new(alloc);
    let yes = refutes_by(alloc, clauses, log, &hints)?;
    Ok(yes)
}

/// The same, where the clauses of its hints are looked at first for each line. The answer doesn't
/// depend on them.
pub fn refutes_by(
    alloc: Global,
    clauses: &Clauses,
    log: &Log,
    hints: &Hints,
) -> Result<bool, NoMemory>
    ensures { IfOk result (λ yes. IsTrue yes ↔ Passes clauses.now log.now) }
{
    if !ends_empty(log) || !are_in_range(clauses.vars, log) {
        return Ok(false);
    }
    let mut p = Propagator::new(alloc, clauses.vars)?;
    let yes = replay(&mut p, clauses, log, hints)?;
    Ok(yes)
}
