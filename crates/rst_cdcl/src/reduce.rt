// Drops half of the learnt clauses, and closes the gaps.
use crate::arena::{Arena, HEADER};
use crate::assignment::{Assignment, Origin, Reason, TRUE};
use crate::cells::{narrow, word};
use crate::watches::{List, TERNARY, Watch, Watches};
use std::alloc::{AllocError, Global};

/// The glue of a clause that is dropped.
const GARBAGE: u32 = 0xFFFF_FFFF;

// A clause that may be dropped.
#[derive(Clone, Copy, PartialEq, Eq, PartialOrd, Ord)]
struct Candidate {
    glue: u32,
    size: u32,
    clause: u32,
}

// Whether the clause is why one of its first two literals stands.
fn is_reason(assignment: &Assignment, arena: &Arena, clause: u32) -> bool {
    for k in HEADER..HEADER + 2 {
        let lit = word(&arena.words, clause.wrapping_add(k));
        if assignment.value(lit) == TRUE {
            if let Reason::Clause(reason) = assignment.origin(lit >> 1).reason {
                if reason == clause {
                    return true;
                }
            }
        }
    }
    false
}

// The learnt clauses that may be dropped.
fn candidates(
    alloc: Global,
    assignment: &Assignment,
    arena: &Arena,
    learnts: &[u32],
) -> Result<Vec<Candidate>, AllocError> {
    let mut found = Vec::new(alloc);
    for clause in learnts {
        let clause = *clause;
        let glue = arena.glue(clause);
        if glue > 2 && !is_reason(assignment, arena, clause) {
            let size = arena.size(clause);
            found.push(Candidate { glue, size, clause })?;
        }
    }
    Ok(found)
}

// Marks the worse half.
fn mark_garbage(arena: &mut Arena, candidates: &[Candidate]) {
    for k in candidates.len() / 2..candidates.len() {
        arena.set_glue(candidates[k].clause, GARBAGE);
    }
}

// Copies a clause. Its glue becomes its new place.
fn move_clause(
    arena: &mut Arena,
    fresh: &mut Arena,
    base: u32,
    clause: u32,
) -> Result<u32, AllocError> {
    let glue = arena.glue(clause);
    let origin = arena.origin(clause);
    let place = fresh
        .push(glue, origin, arena.lits(clause))?
        .wrapping_add(base);
    arena.set_glue(clause, place);
    Ok(place)
}

// Copies the clauses from the place on that are not dropped. Notes the new places of those learnt.
fn move_clauses(
    arena: &mut Arena,
    fresh: &mut Arena,
    learnts: &mut Vec<u32>,
    base: u32,
) -> Result<(), AllocError> {
    let end = narrow(arena.words.len());
    let mut clause = base;
    for _ in base..end {
        if clause >= end {
            return Ok(());
        }
        let glue = arena.glue(clause);
        if glue != GARBAGE {
            let place = move_clause(arena, fresh, base, clause)?;
            if glue != 0 {
                learnts.push(place)?;
            }
        }
        clause = clause.wrapping_add(arena.size(clause)).wrapping_add(HEADER);
    }
    Ok(())
}

// The new place of a clause, if it is not dropped.
#[inline(always)]
fn moved(arena: &Arena, base: u32, clause: u32) -> Option<u32> {
    if clause < base {
        return Some(clause);
    }
    let place = arena.glue(clause);
    if place == GARBAGE { None } else { Some(place) }
}

// The watch at its clause's new place, if that is not dropped.
fn moved_watch(arena: &Arena, base: u32, watch: Watch) -> Option<Watch> {
    let blocker = watch.blocker;
    if watch.clause >= TERNARY {
        return Some(watch);
    }
    let clause = moved(arena, base, watch.clause)?;
    Some(Watch { clause, blocker })
}

// The watches of one literal at their clauses' new places.
fn move_list(watches: &mut Watches, arena: &Arena, base: u32, lit: u32) {
    let List {
        start,
        len,
        room: _,
    } = watches.list(lit);
    let mut kept = start;
    for i in start..start.wrapping_add(len) {
        if let Some(watch) = moved_watch(arena, base, watches.at(i)) {
            watches.put(kept, watch);
            kept = kept.wrapping_add(1);
        }
    }
    watches.cut(lit, kept);
}

// The reasons at their new places.
fn move_reasons(assignment: &mut Assignment, arena: &Arena, base: u32) {
    for p in 0..assignment.count {
        let variable = word(&assignment.trail, p) >> 1;
        let Origin { level, reason } = assignment.origin(variable);
        if let Reason::Clause(clause) = reason {
            let moved = moved(arena, base, clause).unwrap_or(clause);
            let reason = Reason::Clause(moved);
            assignment.set_origin(variable, Origin { level, reason });
        }
    }
}

/// Drops the worse half of the learnt clauses.
pub fn reduce(
    alloc: Global,
    assignment: &mut Assignment,
    watches: &mut Watches,
    arena: &mut Arena,
    learnts: &mut Vec<u32>,
) -> Result<(), AllocError> {
    let mut found = candidates(alloc, assignment, arena, learnts)?;
    found.sort_unstable();
    mark_garbage(arena, &found);
    let base = learnts.first().copied().unwrap_or(0);
    let mut fresh = Arena::new(alloc);
    learnts.clear();
    move_clauses(arena, &mut fresh, learnts, base)?;
    for lit in 0..assignment.vars.wrapping_mul(2) {
        move_list(watches, arena, base, lit);
    }
    move_reasons(assignment, arena, base);
    arena.words.truncate(base as usize);
    arena.words.extend_from_slice(&fresh.words)?;
    Ok(())
}
