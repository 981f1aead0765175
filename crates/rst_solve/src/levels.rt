// The decisions that stand.
ghost use Rattle.std.specs.Prelude.{◌≡◌, ◌-◌, ◌<◌, ◌^◌, ℕ, [], ◌∷◌, ◌++◌, length, IfOk, OnOk, OnErr, MatchOption, slice_index_or};
ghost use Rattle.std.specs.List.{All};
ghost use Rattle.rst_clause.specs.Extension.{literal_of};
ghost use Rattle.rst_solve.specs.Tree.{decisions, denied};

use rst_clause::{Clause, Lit};
use rst_outside::NoMemory;
use std::alloc::Global;
use std::marker::Model;

/// A decision on a free bit, from 0: its value, and how many literals stood before it.
#[derive(Clone, Copy, Debug)]
pub struct Level {
    pub bit: u32,
    pub value: bool,
    pub floor: usize,
}

/// A stack of decisions. Contracts see it as the list from the deepest up.
#[derive(Drop)]
pub struct Levels {
    items: Vec<Level>,
}

impl Model for Levels {
    ghost use Rattle.std.specs.Prelude.{List};
    ghost use mathlib.Core.List.{reverse};
    ghost use Rattle.rst_solve.specs.declared.levels.Level.{Level};

    ghost Value = { List Level };

    ghost view = { λ l. reverse l.items.items };
}

/// The literal of the bit's value.
pub fn literal(bit: u32, value: bool) -> Lit
    requires { bit < 2 ^ 31 - 1 }
    ensures { result ≡ literal_of value bit }
{
    let high = Lit::of_variable(bit + 1);
    if value { high } else { high.opposite() }
}

impl Levels {
    /// No decision.
    pub fn new(alloc: Global) -> Levels
        ensures { result ≡ [] }
    {
        Levels {
            items: Vec::new(alloc),
        }
    }

    /// One more decision.
    pub fn push(&mut self, level: Level) -> Result<(), NoMemory>
        ensures { OnOk result (self.new ≡ level ∷ self.old) }
    {
        self.items.push(level)?;
        Ok(())
    }

    /// Takes the deepest decision back.
    pub fn pop(&mut self) -> Option<Level>
        ensures { MatchOption result ((self.old ≡ []) × (self.new ≡ [])) (λ level. self.old ≡ level ∷ self.new) }
    {
        self.items.pop()
    }

    /// How many decisions there are.
    pub fn len(&self) -> usize
        ensures { result ≡ length self.now }
    {
        self.items.len()
    }

    /// The clause that says that one of the decisions is false.
    pub fn denied(&self, alloc: Global) -> Result<Clause, NoMemory>
        requires { All (λ l. l.bit < 2 ^ 31 - 1) self.now }
        ensures { IfOk result (λ clause. clause ≡ denied (decisions self.now)) }
    {
        let mut clause = Clause::new(alloc);
        for i in 0..self.items.len() {
            let level = self.items[self.items.len() - 1 - i];
            clause.push(literal(level.bit, level.value).opposite())?;
        }
        Ok(clause)
    }
}
