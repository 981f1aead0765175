// How many literals stood below each level that is open.
ghost use Rattle.std.specs.Prelude.{◌≡◌, [], ◌∷◌, OnOk, OnErr, MatchOption};

use rst_outside::NoMemory;
use std::alloc::Global;
use std::marker::Model;

/// A stack of numbers. Contracts see it as the list from the last one on.
#[derive(Drop)]
pub(crate) struct Floors {
    items: Vec<usize>,
}

impl Model for Floors {
    ghost use Rattle.std.specs.Prelude.{ℕ, List};
    ghost use mathlib.Core.List.{reverse};

    ghost Value = { List ℕ };

    ghost view = { λ f. reverse f.items.items };
}

impl Floors {
    pub(crate) fn new(alloc: Global) -> Floors
        ensures { result ≡ [] }
    {
        Floors {
            items: Vec::new(alloc),
        }
    }

    pub(crate) fn push(&mut self, floor: usize) -> Result<(), NoMemory>
        ensures ok { OnOk result (self.new ≡ floor ∷ self.old) }
        ensures err { OnErr result (self.new ≡ self.old) }
    {
        self.items.push(floor)?;
        Ok(())
    }

    pub(crate) fn pop(&mut self) -> Option<usize>
        ensures { MatchOption result ((self.old ≡ []) × (self.new ≡ self.old)) (λ floor. self.old ≡ floor ∷ self.new) }
    {
        self.items.pop()
    }
}
