// Clauses with the places where each literal occurs.
ghost use Rattle.std.specs.Prelude.{◌≡◌, ◌+◌, ◌<◌, ◌≤◌, ◌^◌, ℕ, ℤ, List, [], ◌∷◌, ◌++◌, length, IfOk, OnOk, OnErr, slice_index_or, map};
ghost use Rattle.std.specs.List.{Contains};
ghost use Rattle.rst_clause.specs.Occurrences.{KeepsLists, IsNotedTo};

use crate::trail::place_of;
use crate::{ClauseStore, Lit};
use rst_outside::NoMemory;
use std::alloc::Global;
use std::marker::Model;

// The numbers of clauses in which one literal occurs.
#[derive(Debug, Drop)]
struct Numbers {
    items: Vec<usize>,
}

impl Model for Numbers {
    ghost use Rattle.std.specs.Prelude.{ℕ, List};

    ghost Value = { List ℕ };

    ghost view = { λ n. n.items.items };
}

impl Numbers {
    fn new(alloc: Global) -> Numbers
        ensures { result ≡ [] }
    {
        Numbers {
            items: Vec::new(alloc),
        }
    }

    fn push(&mut self, number: usize) -> Result<(), NoMemory>
        ensures ok { OnOk result (self.new ≡ self.old ++ number ∷ []) }
        ensures err { OnErr result (self.new ≡ self.old) }
    {
        self.items.push(number)?;
        Ok(())
    }

    fn as_slice(&self) -> &[usize]
        ensures { result.now ≡ self.now }
    {
        self.items.as_slice()
    }
}

/// A list of clauses with occurrence lists: for each literal the clauses in which it occurs, so
/// that unit propagation looks at no others when the literal becomes false.
///
/// Contracts see the list of clauses alone.
#[derive(Debug, Drop)]
pub struct IndexedClauses {
    alloc: Global,
    store: ClauseStore,
    occurrences: Vec<Numbers>,
}

impl Model for IndexedClauses {
    ghost use Rattle.std.specs.Prelude.{ℤ, List};

    ghost Value = { List (List ℤ) };

    ghost use Rattle.rst_clause.specs.Occurrences.{IsIndexed};

    ghost view = { λ c. c.store };

    ghost invariant = { λ c. IsIndexed c.store c.occurrences.items };
}

// Adds empty lists until there is one at the place.
fn reach(alloc: Global, lists: &mut Vec<Numbers>, place: usize) -> Result<(), NoMemory>
    requires { place < 2 ^ 34 }
    ensures kept { KeepsLists lists.old.items lists.new.items }
    ensures reached { OnOk result (place < length lists.new.items) }
{
    'growing: while lists.len() <= place {
        lists.push(Numbers::new(alloc))?;
    }
    Ok(())
}

// Adds the number to the list at the place.
fn note(
    alloc: Global,
    lists: &mut Vec<Numbers>,
    place: usize,
    number: usize,
) -> Result<(), NoMemory>
    requires { place < 2 ^ 34 }
    ensures kept { KeepsLists lists.old.items lists.new.items }
    ensures noted { OnOk result (Contains (slice_index_or lists.new.items place []) number) }
{
    reach(alloc, lists, place)?;
    lists[place].push(number)?;
    Ok(())
}

// Adds the number to the list of each literal of the clause.
fn note_all(
    alloc: Global,
    lists: &mut Vec<Numbers>,
    clause: &[Lit],
    number: usize,
) -> Result<(), NoMemory>
    ensures kept { KeepsLists lists.old.items lists.new.items }
    ensures noted { OnOk result (IsNotedTo lists.new.items clause.now number) }
{
    for i in 0..clause.len() {
        note(alloc, lists, place_of(clause[i]), number)?;
    }
    Ok(())
}

impl IndexedClauses {
    /// No clause.
    pub fn new(alloc: Global) -> IndexedClauses
        ensures { result ≡ [] }
    {
        IndexedClauses {
            alloc,
            store: ClauseStore::new(alloc),
            occurrences: Vec::new(alloc),
        }
    }

    /// The number of clauses.
    pub fn len(&self) -> usize
        ensures { result ≡ length self.now }
    {
        self.store.len()
    }

    /// The literals of the clause at the place, from 0.
    pub fn get(&self, i: usize) -> &[Lit]
        requires { i < length self.now }
        ensures { result.now ≡ slice_index_or self.now i [] }
    {
        self.store.get(i)
    }

    /// One more clause at the end; after NoMemory the clauses are as before.
    pub fn push(&mut self, clause: &[Lit]) -> Result<(), NoMemory>
        ensures ok { OnOk result (self.new ≡ self.old ++ clause.now ∷ []) }
        ensures err { OnErr result (self.new ≡ self.old) }
    {
        let number = self.store.len();
        note_all(self.alloc, &mut self.occurrences, clause, number)?;
        self.store.push(clause)?;
        Ok(())
    }

    // Numbers among which are those of the clauses in which the literal occurs. Some of them may
    // be those of other clauses, or of none: a push for which there was no memory leaves them.
    pub(crate) fn occurrences(&self, lit: Lit) -> &[usize]
        ensures { (i : ℕ) → i < length self.now → Contains (slice_index_or self.now i []) lit → Contains result.now i }
    {
        match self.occurrences.get(place_of(lit)) {
            Some(list) => list.as_slice(),
            None => &[],
        }
    }
}
