// Unit propagation.
use crate::arena::{Arena, HEADER};
use crate::assignment::{Assignment, FALSE, Reason, TRUE};
use crate::cells::{byte, narrow, set_word, word};
use crate::watches::{BINARY, TERNARY, Watch, Watches};
use std::alloc::AllocError;

/// A clause that is false.
#[derive(Clone, Copy)]
pub enum Conflict {
    Binary(u32, u32),
    Ternary(u32, u32, u32),
    Clause(u32),
}

// What a clause is, one of whose watched literals became false. With each the other one.
enum Look {
    Satisfied(u32),
    Moves(u32, u32),
    Unit(u32),
    False(u32),
}

// The place of a literal that is not false, from one place on and before another.
#[inline(always)]
fn not_false(values: &[u8], clause: &[u32], from: usize, end: usize) -> Option<usize> {
    for k in from..end {
        if k < clause.len() && byte(values, clause[k]) != FALSE {
            return Some(k);
        }
    }
    None
}

// Looks at a clause of which the literal became false, and finds another literal to watch, from
// the place on at which the last one was found. So a long clause is gone over once, and not at
// each of its literals from the beginning.
#[inline(always)]
fn look_at_literals(values: &[u8], clause: &mut [u32], falsified: u32, last: &mut u32) -> Look {
    if clause.len() < 2 {
        return Look::Satisfied(falsified);
    }
    let other = clause[0] ^ clause[1] ^ falsified;
    let value = byte(values, other);
    if value == TRUE {
        return Look::Satisfied(other);
    }
    let from = *last as usize;
    let found = match not_false(values, clause, from, clause.len()) {
        None => not_false(values, clause, 2, from),
        some => some,
    };
    if let Some(k) = found {
        if k < clause.len() {
            let lit = clause[k];
            clause[0] = other;
            clause[1] = lit;
            clause[k] = falsified;
            *last = narrow(k);
            return Look::Moves(other, lit);
        }
    }
    if value == FALSE {
        Look::False(other)
    } else {
        Look::Unit(other)
    }
}

// Looks at the clause at the place.
#[inline(always)]
fn look_at(values: &[u8], words: &mut [u32], place: u32, falsified: u32) -> Look {
    let size = word(words, place) as usize;
    let start = place as usize + HEADER as usize;
    let end = start + size;
    if end > words.len() {
        return Look::Satisfied(falsified);
    }
    let at = place.wrapping_add(2);
    let before = word(words, at);
    let mut last = before;
    let look = look_at_literals(values, &mut words[start..end], falsified, &mut last);
    if last != before {
        set_word(words, at, last);
    }
    look
}

// Keeps the watches that were not looked at.
#[inline(never)]
fn keep_rest(watches: &mut Watches, lit: u32, from: u32, end: u32, kept: u32) {
    let mut to = kept;
    for i in from..end {
        let watch = watches.at(i);
        watches.put(to, watch);
        to = to.wrapping_add(1);
    }
    watches.cut(lit, to);
}

// The highest level of the clause's literals but one.
#[inline(never)]
fn highest(assignment: &Assignment, clause: &[u32], but: u32) -> u32 {
    let mut highest = 0u32;
    for lit in clause {
        if *lit != but {
            highest = highest.max(assignment.level_of(*lit >> 1));
        }
    }
    highest
}

// Looks at the clauses that watch the opposite of the literal.
fn visit(
    assignment: &mut Assignment,
    watches: &mut Watches,
    arena: &mut Arena,
    lit: u32,
) -> Result<Option<Conflict>, AllocError> {
    let list = watches.list(lit);
    let end = list.start.wrapping_add(list.len);
    let falsified = lit ^ 1;
    let level = assignment.level_of(lit >> 1);
    let is_last = level >= assignment.level;
    let mut kept = list.start;
    for i in list.start..end {
        let watch = watches.at(i);
        let value = assignment.value(watch.blocker);
        if value == TRUE {
            watches.put(kept, watch);
            kept = kept.wrapping_add(1);
            continue;
        }
        if watch.clause == BINARY {
            watches.put(kept, watch);
            kept = kept.wrapping_add(1);
            if value == FALSE {
                keep_rest(watches, lit, i.wrapping_add(1), end, kept);
                return Ok(Some(Conflict::Binary(falsified, watch.blocker)));
            }
            assignment.assign(watch.blocker, level, Reason::Binary(falsified));
            continue;
        }
        if watch.clause >= TERNARY {
            watches.put(kept, watch);
            kept = kept.wrapping_add(1);
            let blocker = watch.blocker;
            let third = watch.clause ^ TERNARY;
            let other = assignment.value(third);
            if other == TRUE || (value != FALSE && other != FALSE) {
                continue;
            }
            if value == FALSE && other == FALSE {
                keep_rest(watches, lit, i.wrapping_add(1), end, kept);
                return Ok(Some(Conflict::Ternary(falsified, blocker, third)));
            }
            let (implied, against) = if value == FALSE {
                (third, blocker)
            } else {
                (blocker, third)
            };
            let highest = level.max(assignment.level_of(against >> 1));
            assignment.assign(implied, highest, Reason::Ternary(falsified, against));
            continue;
        }
        match look_at(
            &assignment.values,
            &mut arena.words,
            watch.clause,
            falsified,
        ) {
            Look::Satisfied(blocker) => {
                let clause = watch.clause;
                watches.put(kept, Watch { clause, blocker });
                kept = kept.wrapping_add(1);
            }
            Look::Moves(blocker, next) => {
                let clause = watch.clause;
                watches.push(next ^ 1, Watch { clause, blocker })?;
            }
            Look::Unit(blocker) => {
                let clause = watch.clause;
                watches.put(kept, Watch { clause, blocker });
                kept = kept.wrapping_add(1);
                let highest = if is_last {
                    level
                } else {
                    highest(assignment, arena.lits(clause), blocker)
                };
                assignment.assign(blocker, highest, Reason::Clause(clause));
            }
            Look::False(blocker) => {
                let clause = watch.clause;
                watches.put(kept, Watch { clause, blocker });
                kept = kept.wrapping_add(1);
                keep_rest(watches, lit, i.wrapping_add(1), end, kept);
                return Ok(Some(Conflict::Clause(clause)));
            }
        }
    }
    watches.cut(lit, kept);
    Ok(None)
}

/// Adds what follows from the literals that stand. A clause that is false, if one is.
pub fn propagate(
    assignment: &mut Assignment,
    watches: &mut Watches,
    arena: &mut Arena,
) -> Result<Option<Conflict>, AllocError> {
    let most = assignment.vars;
    for _ in 0..most {
        let Some(lit) = assignment.next() else {
            return Ok(None);
        };
        if let Some(conflict) = visit(assignment, watches, arena, lit)? {
            return Ok(Some(conflict));
        }
    }
    Ok(None)
}
