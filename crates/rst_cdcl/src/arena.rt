// Clauses of four literals or more, and those that were learnt of two or more, laid flat: the number of literals, the glue, where the last
// literal to watch was found, where it comes from, the literals.
use crate::cells::{narrow, set_word, word};
use crate::hint::Hint;
use std::alloc::{AllocError, Global};

/// Words before the literals of a clause.
pub const HEADER: u32 = 4;

/// Added to the number of a clause that was given, where that of a learnt one is its place in the
/// log, from 1.
const GIVEN: u32 = 0x8000_0000;

/// No clause begins here or behind it.
pub const MOST: u32 = 0x8000_0000;

/// Where a clause comes from that was added after so many others.
pub fn given(number: u32) -> u32 {
    number | GIVEN
}

/// Whether a clause was learnt that comes from there.
pub fn is_learnt(origin: u32) -> bool {
    origin & GIVEN == 0
}

/// The clauses. A clause is named by its place.
#[derive(Drop)]
pub struct Arena {
    pub words: Vec<u32>,
}

impl Arena {
    /// No clause.
    pub fn new(alloc: Global) -> Arena {
        Arena {
            words: Vec::new(alloc),
        }
    }

    /// One more clause, of glue 0 if it was given. Its place; AllocError where places are used up.
    pub fn push(&mut self, glue: u32, origin: u32, lits: &[u32]) -> Result<u32, AllocError> {
        let place = narrow(self.words.len());
        if place >= MOST {
            return Err(AllocError);
        }
        self.words.push(narrow(lits.len()))?;
        self.words.push(glue)?;
        self.words.push(2)?;
        self.words.push(origin)?;
        self.words.extend_from_slice(lits)?;
        Ok(place)
    }

    /// The number of literals of the clause.
    #[inline(always)]
    pub fn size(&self, clause: u32) -> u32 {
        word(&self.words, clause)
    }

    /// The glue of the clause.
    #[inline(always)]
    pub fn glue(&self, clause: u32) -> u32 {
        word(&self.words, clause.wrapping_add(1))
    }

    /// Where the clause comes from: its number in the log, from 1, or `given` of one that was added.
    #[inline(always)]
    pub fn origin(&self, clause: u32) -> u32 {
        word(&self.words, clause.wrapping_add(3))
    }

    /// The clause's number in the log, from 1; 0 if it was given.
    #[inline(always)]
    pub fn line(&self, clause: u32) -> u32 {
        let origin = self.origin(clause);
        if origin & GIVEN == 0 { origin } else { 0 }
    }

    /// The clause as one that others are derived from.
    pub fn hint(&self, clause: u32) -> Hint {
        let origin = self.origin(clause);
        if origin & GIVEN == 0 {
            Hint::Line(origin.wrapping_sub(1))
        } else {
            Hint::Given(origin ^ GIVEN)
        }
    }

    /// Writes the glue of the clause.
    pub fn set_glue(&mut self, clause: u32, glue: u32) {
        set_word(&mut self.words, clause.wrapping_add(1), glue);
    }

    /// The literals of the clause.
    #[inline(always)]
    pub fn lits(&self, clause: u32) -> &[u32] {
        let size = word(&self.words, clause) as usize;
        let start = clause as usize + HEADER as usize;
        let end = start + size;
        if end <= self.words.len() {
            &self.words[start..end]
        } else {
            &[]
        }
    }
}
