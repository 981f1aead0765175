// Levels: their beginning, what is assumed on them, and the way back.
ghost use Rattle.std.specs.Prelude.{◌≡◌, ◌≤◌, ℕ, List, [], ◌∷◌, length, take, OnOk, unsigned_abs};
ghost use Rattle.std.specs.List.{Contains};
ghost use Rattle.rst_clause.specs.Literals.{opposite};
ghost use Rattle.rst_clause.specs.Trails.{pushed};
ghost use Rattle.rst_watch.specs.Watching.{IsWatching};

use crate::state::State;
use rst_clause::Lit;
use rst_outside::NoMemory;

/// Begins a level, where all that stands was propagated.
pub(crate) fn open(s: &mut State) -> Result<(), NoMemory>
    requires watching { IsWatching s.old }
    requires settled { s.old.done ≡ length s.old.trail.lits }
    ensures watching { IsWatching s.new }
    ensures floors { OnOk result (s.new.floors ≡ length s.old.trail.lits ∷ s.old.floors) }
    ensures store { s.new.store ≡ s.old.store }
    ensures trail { s.new.trail ≡ s.old.trail }
    ensures done { s.new.done ≡ s.old.done }
{
    let floor = s.trail.len();
    s.floors.push(floor)?;
    Ok(())
}

/// One more literal stands.
pub(crate) fn assume(s: &mut State, lit: Lit) -> Result<(), NoMemory>
    requires watching { IsWatching s.old }
    requires in_range { unsigned_abs lit ≤ s.old.trail.vars }
    requires not_there { Contains s.old.trail.lits lit → ⊥ }
    requires not_opposite { Contains s.old.trail.lits (opposite lit) → ⊥ }
    ensures watching { IsWatching s.new }
    ensures trail { OnOk result (s.new.trail ≡ pushed s.old.trail lit 0) }
    ensures store { s.new.store ≡ s.old.store }
    ensures floors { s.new.floors ≡ s.old.floors }
{
    s.trail.push(lit, 0)?;
    Ok(())
}

/// Takes the last level back, if one is open.
pub(crate) fn back(s: &mut State)
    requires watching { IsWatching s.old }
    ensures watching { IsWatching s.new }
    ensures lits { (m : ℕ) (rest : List ℕ) → s.old.floors ≡ m ∷ rest → s.new.trail.lits ≡ take m s.old.trail.lits }
    ensures floors { (m : ℕ) (rest : List ℕ) → s.old.floors ≡ m ∷ rest → s.new.floors ≡ rest }
    ensures done { (m : ℕ) (rest : List ℕ) → s.old.floors ≡ m ∷ rest → s.new.done ≡ length s.new.trail.lits }
    ensures vars { s.new.trail.vars ≡ s.old.trail.vars }
    ensures store { s.new.store ≡ s.old.store }
{
    if let Some(floor) = s.floors.pop() {
        s.trail.truncate(floor);
        s.done = floor;
    }
}
