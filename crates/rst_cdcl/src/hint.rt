// The clauses that a learnt clause was derived from, in the order in which they were used.
use crate::arena::Arena;
use crate::assignment::{Assignment, Reason};
use crate::cells::number;
use crate::propagate::Conflict;

/// A clause that another one was derived from.
#[derive(Clone, Copy)]
pub enum Hint {
    /// The clause of the log at this place, from 0.
    Line(u32),
    /// The clause that was added after so many others.
    Given(u32),
    /// A clause that was added, of which these literals were left.
    Two(i32, i32),
    Three(i32, i32, i32),
}

/// A hint, and the place on the trail of the literal that its clause made true.
#[derive(Clone, Copy)]
pub struct Step {
    pub place: u32,
    pub hint: Hint,
}

/// Behind all places of the trail.
const LAST: u32 = 0xFFFF_FFFF;

/// The step of a literal that stands, unless it was decided or learnt alone.
#[inline(always)]
pub fn step_of(assignment: &Assignment, arena: &Arena, lit: u32) -> Option<Step> {
    let hint = match assignment.origin(lit >> 1).reason {
        Reason::Decision | Reason::Learnt(_) => return None,
        Reason::Binary(other) => Hint::Two(number(lit), number(other)),
        Reason::Ternary(one, other) => Hint::Three(number(lit), number(one), number(other)),
        Reason::Clause(clause) => arena.hint(clause),
    };
    let place = assignment.place_of(lit >> 1);
    Some(Step { place, hint })
}

/// The last step: the clause that is false.
pub fn last_step(arena: &Arena, conflict: Conflict) -> Step {
    let hint = match conflict {
        Conflict::Binary(one, other) => Hint::Two(number(one), number(other)),
        Conflict::Ternary(one, other, third) => {
            Hint::Three(number(one), number(other), number(third))
        }
        Conflict::Clause(clause) => arena.hint(clause),
    };
    Step { place: LAST, hint }
}
