// Unit propagation by a queue over the trail.
ghost use Rattle.std.specs.Prelude.{◌≡◌, ◌<◌, ◌≤◌, ◌^◌, ◌++◌, ℕ, ℤ, List, [], length, take, IfOk, slice_index_or};
ghost use Rattle.std.specs.List.{Contains};
ghost use Rattle.rst_clause.specs.Literals.{AreClauses};
ghost use Rattle.rst_clause.specs.Trails.{IsComplete};
ghost use Rattle.rst_clause.specs.Queue.{AreQuietTo, LooksAt, LooksAtAll, Propagates};

use crate::status::{Status, status_of};
use crate::{IndexedClauses, Lit, Trail};
use rst_outside::NoMemory;

// Looks at one clause, and adds what it implies. Whether it is false.
fn look(trail: &mut Trail, clauses: &IndexedClauses, i: usize) -> Result<bool, NoMemory>
    requires in_range { AreClauses trail.old.vars clauses.now }
    requires few { trail.old.vars < 2 ^ 31 }
    requires place { i < length clauses.now }
    ensures { IfOk result (λ is_false. LooksAt clauses.now i trail.old trail.new is_false) }
{
    match status_of(trail, clauses.get(i)) {
        Status::False => Ok(true),
        Status::Unit(lit) => {
            trail.push(lit, i)?;
            Ok(false)
        }
        Status::Quiet => Ok(false),
    }
}

// Looks at the clauses from a number on, until one is false.
fn look_from(
    trail: &mut Trail,
    clauses: &IndexedClauses,
    since: usize,
) -> Result<Option<usize>, NoMemory>
    requires in_range { AreClauses trail.old.vars clauses.now }
    requires few { trail.old.vars < 2 ^ 31 }
    ensures { IfOk result (λ found. LooksAtAll clauses.now (λ i. since ≤ i) trail.old trail.new found) }
{
    for i in since..clauses.len() {
        let is_false = look(trail, clauses, i)?;
        if is_false {
            return Ok(Some(i));
        }
    }
    Ok(None)
}

// Looks at the clauses in which the literal occurs, until one is false.
fn look_at_occurrences(
    trail: &mut Trail,
    clauses: &IndexedClauses,
    lit: Lit,
) -> Result<Option<usize>, NoMemory>
    requires in_range { AreClauses trail.old.vars clauses.now }
    requires few { trail.old.vars < 2 ^ 31 }
    ensures { IfOk result (λ found. LooksAtAll clauses.now (λ i. Contains (slice_index_or clauses.now i []) lit) trail.old trail.new found) }
{
    let numbers = clauses.occurrences(lit);
    for k in 0..numbers.len() {
        let i = numbers[k];
        if i < clauses.len() {
            let is_false = look(trail, clauses, i)?;
            if is_false {
                return Ok(Some(i));
            }
        }
    }
    Ok(None)
}

// Looks at the clauses in which a literal of the trail, from a place on, makes a literal false.
fn look_along(
    trail: &mut Trail,
    clauses: &IndexedClauses,
    from: usize,
) -> Result<Option<usize>, NoMemory>
    requires in_range { AreClauses trail.old.vars clauses.now }
    requires few { trail.old.vars < 2 ^ 31 }
    requires from { from ≤ length trail.old.lits }
    requires quiet { AreQuietTo clauses.now (λ _. Unit {0}) from trail.old.lits }
    ensures { IfOk result (λ found. Propagates clauses.now trail.old trail.new found) }
{
    let mut next = from;
    'waiting: while next < trail.len() {
        let lit = trail.get(next);
        let found = look_at_occurrences(trail, clauses, lit.opposite())?;
        if let Some(i) = found {
            return Ok(Some(i));
        }
        next += 1;
    }
    Ok(None)
}

/// Unit propagation: adds what the clauses imply until one of them is false, whose number it
/// answers, or nothing is left to add.
///
/// Propagation of the first `since` clauses was complete when the first `from` literals stood. So
/// it looks at the clauses behind those, and at clauses in which a later literal makes a literal
/// false. With 0 and 0 nothing is known.
pub fn propagate(
    trail: &mut Trail,
    clauses: &IndexedClauses,
    from: usize,
    since: usize,
) -> Result<Option<usize>, NoMemory>
    requires in_range { AreClauses trail.old.vars clauses.now }
    requires few { trail.old.vars < 2 ^ 31 }
    requires from { from ≤ length trail.old.lits }
    requires complete { IsComplete (take from trail.old.lits) (take since clauses.now) }
    ensures { IfOk result (λ found. Propagates clauses.now trail.old trail.new found) }
{
    let found = look_from(trail, clauses, since)?;
    if let Some(i) = found {
        return Ok(Some(i));
    }
    let rest = look_along(trail, clauses, from)?;
    Ok(rest)
}
