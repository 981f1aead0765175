// Where a conflict stands. Literals of low levels may stand behind others of higher ones, so that
// a conflict's highest level is not always the last one.
use crate::arena::HEADER;
use crate::assignment::Reason;
use crate::cells::{set_word, word};
use crate::propagate::Conflict;
use crate::search::Search;
use crate::watches::Watch;
use std::alloc::AllocError;

/// The two highest levels of a conflict's literals, equal ones counted twice.
#[derive(Clone, Copy)]
pub struct Top {
    pub level: u32,
    pub second: u32,
}

impl Search {
    // Watches the literal of a clause in place of another.
    fn watch_instead(
        &mut self,
        clause: u32,
        before: u32,
        lit: u32,
        blocker: u32,
    ) -> Result<(), AllocError> {
        self.watches.remove(before ^ 1, clause);
        self.watches.push(lit ^ 1, Watch { clause, blocker })
    }

    // Puts the literal of the highest level, from the place on, at this place of a clause, which is
    // one of the first two, and watches it. Its level.
    fn raise(&mut self, clause: u32, place: u32) -> Result<u32, AllocError> {
        let start = clause.wrapping_add(HEADER);
        let at = start.wrapping_add(place);
        let before = word(&self.arena.words, at);
        let mut best = at;
        let mut highest = self.assignment.level_of(before >> 1);
        for k in at.wrapping_add(1)..start.wrapping_add(self.arena.size(clause)) {
            let level = self.assignment.level_of(word(&self.arena.words, k) >> 1);
            if level > highest {
                highest = level;
                best = k;
            }
        }
        if best == at {
            return Ok(highest);
        }
        let lit = word(&self.arena.words, best);
        set_word(&mut self.arena.words, at, lit);
        set_word(&mut self.arena.words, best, before);
        if best > start.wrapping_add(1) {
            let other = word(&self.arena.words, start.wrapping_add(1 - place.min(1)));
            self.watch_instead(clause, before, lit, other)?;
        }
        Ok(highest)
    }

    /// Where the conflict stands. Its clause watches literals of the two highest levels from now
    /// on.
    pub fn top_of(&mut self, conflict: Conflict) -> Result<Top, AllocError> {
        match conflict {
            Conflict::Binary(one, other) => {
                let one = self.assignment.level_of(one >> 1);
                let other = self.assignment.level_of(other >> 1);
                Ok(Top {
                    level: one.max(other),
                    second: one.min(other),
                })
            }
            Conflict::Ternary(one, other, third) => {
                let one = self.assignment.level_of(one >> 1);
                let other = self.assignment.level_of(other >> 1);
                let third = self.assignment.level_of(third >> 1);
                let high = one.max(other);
                let low = one.min(other);
                Ok(Top {
                    level: high.max(third),
                    second: high.min(low.max(third)),
                })
            }
            Conflict::Clause(clause) => Ok(Top {
                level: self.raise(clause, 0)?,
                second: self.raise(clause, 1)?,
            }),
        }
    }

    /// One literal alone is on the conflict's highest level: it is taken back, and follows on the
    /// second.
    pub fn turn(&mut self, conflict: Conflict, top: Top) {
        let (lit, reason) = match conflict {
            Conflict::Binary(one, other) => {
                if self.assignment.level_of(one >> 1) == top.level {
                    (one, Reason::Binary(other))
                } else {
                    (other, Reason::Binary(one))
                }
            }
            Conflict::Ternary(one, other, third) => {
                if self.assignment.level_of(one >> 1) == top.level {
                    (one, Reason::Ternary(other, third))
                } else if self.assignment.level_of(other >> 1) == top.level {
                    (other, Reason::Ternary(one, third))
                } else {
                    (third, Reason::Ternary(one, other))
                }
            }
            Conflict::Clause(clause) => {
                let lit = word(&self.arena.words, clause.wrapping_add(HEADER));
                (lit, Reason::Clause(clause))
            }
        };
        self.backtrack(top.level.saturating_sub(1));
        self.assignment.assign(lit, top.second, reason);
    }
}
