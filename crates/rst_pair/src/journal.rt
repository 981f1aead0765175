ghost use Rattle.std.specs.Prelude.{◌≡◌, ◌<◌, [], ◌∷◌, ◌++◌, length, OnOk, OnErr, slice_index_or};

use crate::{Hop, Kind};
use rst_gate::{Bits, Cube};
use rst_outside::NoMemory;
use std::alloc::Global;
use std::marker::Model;

/// A unit of work of a search.
#[derive(Debug, Drop)]
pub enum Entry {
    /// An input bit at a level, all others at 0, that leaves a register unknown.
    Candidate(u32, bool),
    /// A path of the query of this kind that has no solution.
    Conflict(Kind, Cube),
    /// A blocked hop, and a pair that it holds: the left state, then the right one.
    Blocked(Hop, Bits),
    /// A freed hop, and a pair that it holds.
    Freed(Hop, Bits),
    /// Two states whose pair the sequence is made longer for.
    Built(Bits, Bits),
}

/// The work of a search, unit by unit. Contracts see it as the list of its entries.
#[derive(Debug, Drop)]
pub struct Journal {
    entries: Vec<Entry>,
}

impl Model for Journal {
    ghost use Rattle.std.specs.Prelude.{List};
    ghost use Rattle.rst_pair.specs.declared.journal.Entry.{Entry};

    ghost Value = { List Entry };

    ghost view = { λ it. it.entries.items };
}

impl Journal {
    /// No entries. It takes no memory.
    pub fn new(alloc: Global) -> Journal
        ensures { result ≡ [] }
    {
        Journal {
            entries: Vec::new(alloc),
        }
    }

    /// One more entry at the end. A refusal leaves the journal as before, and drops the entry.
    pub fn push(&mut self, item: Entry) -> Result<(), NoMemory>
        ensures ok { OnOk result (self.new ≡ self.old ++ item ∷ []) }
        ensures err { OnErr result (self.new ≡ self.old) }
    {
        self.entries.push(item)?;
        Ok(())
    }

    /// The entry at a place, counted from 0.
    pub fn get(&self, i: usize) -> &Entry
        requires { i < length self.now }
        ensures { result.now ≡ slice_index_or self.now i result.now }
    {
        &self.entries[i]
    }

    /// How many entries.
    pub fn len(&self) -> usize
        ensures { result ≡ length self.now }
    {
        self.entries.len()
    }

    /// The entries as a slice.
    pub fn as_slice(&self) -> &[Entry]
        ensures { result.now ≡ self.now }
    {
        self.entries.as_slice()
    }
}
