// The learnt clauses, in the order in which they were learnt, and what each was derived from.
use crate::cells::{number, word};
use crate::hint::{Hint, Step};
use std::alloc::{AllocError, Global};

/// The most hints that a log keeps. Clauses behind them have none.
const MOST_HINTS: usize = 8_388_608;

/// A list of clauses, laid flat: their literals, as signed numbers of variables, and where each
/// clause ends; and so the clauses that each was derived from.
#[derive(Drop)]
pub struct Log {
    lits: Vec<i32>,
    ends: Vec<usize>,
    hints: Vec<Hint>,
    hint_ends: Vec<usize>,
}

impl Log {
    /// No clause.
    pub fn new(alloc: Global) -> Log {
        Log {
            lits: Vec::new(alloc),
            ends: Vec::new(alloc),
            hints: Vec::new(alloc),
            hint_ends: Vec::new(alloc),
        }
    }

    // One more clause, of literals by their codes.
    pub(crate) fn push(&mut self, clause: &[u32], steps: &[Step]) -> Result<(), AllocError> {
        for lit in clause {
            self.lits.push(number(*lit))?;
        }
        self.ends.push(self.lits.len())?;
        if steps.len() <= MOST_HINTS.saturating_sub(self.hints.len()) {
            for step in steps {
                self.hints.push(step.hint)?;
            }
        }
        self.hint_ends.push(self.hints.len())?;
        Ok(())
    }

    /// One more clause, of literals by their numbers, and what it was derived from.
    pub fn note(&mut self, clause: &[i32], hints: &[Hint]) -> Result<(), AllocError> {
        self.lits.extend_from_slice(clause)?;
        self.ends.push(self.lits.len())?;
        if hints.len() <= MOST_HINTS.saturating_sub(self.hints.len()) {
            for hint in hints {
                self.hints.push(*hint)?;
            }
        }
        self.hint_ends.push(self.hints.len())?;
        Ok(())
    }

    // One more clause, a clause of another log, whose clauses have new places in this one.
    pub(crate) fn push_moved(
        &mut self,
        from: &Log,
        line: usize,
        places: &[u32],
    ) -> Result<(), AllocError> {
        self.lits.extend_from_slice(from.get(line))?;
        self.ends.push(self.lits.len())?;
        for hint in from.hints(line) {
            self.hints.push(moved(*hint, places))?;
        }
        self.hint_ends.push(self.hints.len())?;
        Ok(())
    }

    /// The number of clauses.
    pub fn len(&self) -> usize {
        self.ends.len()
    }

    /// The literals of the clause at the place, from 0; none outside.
    pub fn get(&self, i: usize) -> &[i32] {
        let (start, end) = ends_at(&self.ends, i);
        if start <= end && end <= self.lits.len() {
            &self.lits[start..end]
        } else {
            &[]
        }
    }

    /// The clauses that the one at the place was derived from: by the search's own account, each of
    /// them has at most one literal that isn't false yet, once all literals of the derived one are
    /// taken to be false, and the last one has none. None outside, and where there are too many.
    pub fn hints(&self, i: usize) -> &[Hint] {
        let (start, end) = ends_at(&self.hint_ends, i);
        if start <= end && end <= self.hints.len() {
            &self.hints[start..end]
        } else {
            &[]
        }
    }
}

// Where the clause's part begins and ends.
fn ends_at(ends: &[usize], i: usize) -> (usize, usize) {
    let start = if i == 0 {
        0
    } else {
        ends.get(i - 1).copied().unwrap_or(0)
    };
    (start, ends.get(i).copied().unwrap_or(0))
}

// The hint, where the clauses of the log have these places.
fn moved(hint: Hint, places: &[u32]) -> Hint {
    match hint {
        Hint::Line(line) => Hint::Line(word(places, line)),
        other => other,
    }
}
