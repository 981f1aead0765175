ghost use Rattle.std.specs.Prelude.{◌≡◌, ◌<◌, ◌≤◌, [], ◌∷◌, ◌++◌, length, take, OnOk, OnErr, slice_index_or};
ghost use Rattle.rst_clause.specs.Parts.{parts, begin_of, AreEnds};

use crate::Lit;
use rst_outside::NoMemory;
use std::alloc::Global;
use std::marker::Model;

/// A list of clauses, laid flat: the literals of all of them, and where each clause ends.
#[derive(Debug, Drop)]
pub struct ClauseStore {
    lits: Vec<Lit>,
    ends: Vec<usize>,
}

impl Model for ClauseStore {
    ghost use Rattle.std.specs.Prelude.{ℤ, List, length};

    ghost Value = { List (List ℤ) };

    ghost use Rattle.rst_clause.specs.Parts.{parts, AreEnds};

    ghost view = { λ s. parts 0 s.ends.items s.lits.items };

    ghost invariant = { λ s. AreEnds 0 s.ends.items (length s.lits.items) };
}

// Where the part at the place begins.
fn start_of(ends: &[usize], i: usize) -> usize
    requires { i ≤ length ends.now }
    ensures { result ≡ begin_of 0 ends.now i }
{
    if i == 0 { 0 } else { ends[i - 1] }
}

// The part at the place.
fn part<'a>(lits: &'a [Lit], ends: &[usize], i: usize) -> &'a [Lit]
    requires ends { AreEnds 0 ends.now (length lits.now) }
    requires place { i < length ends.now }
    ensures { result.now ≡ slice_index_or (parts 0 ends.now lits.now) i [] }
{
    let from = start_of(ends, i);
    let (front, _) = lits.split_at(ends[i]);
    let (_, part) = front.split_at(from);
    part
}

impl ClauseStore {
    /// No clause.
    pub fn new(alloc: Global) -> ClauseStore
        ensures { result ≡ [] }
    {
        ClauseStore {
            lits: Vec::new(alloc),
            ends: Vec::new(alloc),
        }
    }

    /// The number of clauses.
    pub fn len(&self) -> usize
        ensures { result ≡ length self.now }
    {
        self.ends.len()
    }

    /// The literals of the clause at the place, from 0.
    pub fn get(&self, i: usize) -> &[Lit]
        requires { i < length self.now }
        ensures { result.now ≡ slice_index_or self.now i [] }
    {
        part(&self.lits, &self.ends, i)
    }

    /// One more clause at the end; after NoMemory the clauses are as before.
    pub fn push(&mut self, clause: &[Lit]) -> Result<(), NoMemory>
        ensures ok { OnOk result (self.new ≡ self.old ++ clause.now ∷ []) }
        ensures err { OnErr result (self.new ≡ self.old) }
    {
        let before = self.lits.len();
        self.lits.extend_from_slice(clause)?;
        let end = self.lits.len();
        if self.ends.push(end).is_err() {
            self.lits.truncate(before);
            return Err(NoMemory);
        }
        Ok(())
    }

    /// The first `n` clauses alone.
    pub fn truncate(&mut self, n: usize)
        requires { n ≤ length self.old }
        ensures { self.new ≡ take n self.old }
    {
        let end = start_of(&self.ends, n);
        self.lits.truncate(end);
        self.ends.truncate(n);
    }

    /// All clauses of another list at the end; after NoMemory the clauses are as before.
    pub fn append(&mut self, other: &ClauseStore) -> Result<(), NoMemory>
        ensures ok { OnOk result (self.new ≡ self.old ++ other.now) }
        ensures err { OnErr result (self.new ≡ self.old) }
    {
        let before = self.len();
        for i in 0..other.len() {
            if self.push(other.get(i)).is_err() {
                self.truncate(before);
                return Err(NoMemory);
            }
        }
        Ok(())
    }
}
