// For each literal the numbers of the clauses that watch it.
ghost use Rattle.std.specs.Prelude.{◌≡◌, ◌≢◌, ◌+◌, ◌-◌, ◌<◌, ◌≤◌, ◌^◌, ℕ, [], ◌∷◌, ◌++◌, length, OnOk, OnErr, slice_index_or, unsigned_abs};
ghost use Rattle.rst_clause.specs.Trails.{place_of};

use rst_clause::Lit;
use rst_outside::NoMemory;
use std::alloc::Global;
use std::marker::Model;

/// Numbers of clauses.
#[derive(Drop)]
pub(crate) struct Numbers {
    items: Vec<u32>,
}

impl Model for Numbers {
    ghost use Rattle.std.specs.Prelude.{ℕ, List};

    ghost Value = { List ℕ };

    ghost view = { λ n. n.items.items };
}

/// The place of the literal's numbers.
pub(crate) fn place_of(lit: Lit) -> usize
    ensures value { result ≡ place_of lit }
    ensures nonzero { 0 < unsigned_abs lit }
{
    let twice = 2 * (lit.variable() as usize);
    if lit.number() < 0 { twice + 1 } else { twice }
}

impl Numbers {
    pub(crate) fn new(alloc: Global) -> Numbers
        ensures { result ≡ [] }
    {
        Numbers {
            items: Vec::new(alloc),
        }
    }

    pub(crate) fn len(&self) -> usize
        ensures { result ≡ length self.now }
    {
        self.items.len()
    }

    pub(crate) fn get(&self, j: usize) -> u32
        requires { j < length self.now }
        ensures { result ≡ slice_index_or self.now j 0 }
    {
        self.items[j]
    }

    pub(crate) fn push(&mut self, number: u32) -> Result<(), NoMemory>
        ensures ok { OnOk result (self.new ≡ self.old ++ number ∷ []) }
        ensures err { OnErr result (self.new ≡ self.old) }
    {
        self.items.push(number)?;
        Ok(())
    }

    /// Takes the number at the place out; the last takes its place.
    pub(crate) fn swap_remove(&mut self, j: usize)
        requires { j < length self.old }
        ensures len { length self.new + 1 ≡ length self.old }
        ensures last { j + 1 < length self.old → slice_index_or self.new j 0 ≡ slice_index_or self.old (length self.old - 1) 0 }
        ensures others { (q : ℕ) → q ≢ j → q + 1 < length self.old → slice_index_or self.new q 0 ≡ slice_index_or self.old q 0 }
    {
        let _number = self.items.swap_remove(j);
    }
}
