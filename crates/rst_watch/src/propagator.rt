// The type that owns clauses, trail and queue.
ghost use Rattle.std.specs.Prelude.{◌≡◌, ◌↔◌, ◌+◌, ◌<◌, ◌≤◌, ◌^◌, ℕ, ℤ, true, false, List, [], ◌∷◌, ◌++◌, length, take, IfOk, IfNone, OnOk, IsTrue, slice_index_or, unsigned_abs};
ghost use Rattle.std.specs.List.{Contains};
ghost use Rattle.rst_clause.specs.Literals.{opposite, AreLiterals};
ghost use Rattle.rst_clause.specs.Trails.{IsConsistent, IsQuiet, Grows, pushed};
ghost use Rattle.rst_clause.specs.Queue.{Propagates, IsFalseAt};
ghost use Rattle.rst_watch.specs.Watching.{IsWatching};
ghost use Rattle.rst_watch.specs.Choices.{Learns};
ghost use Rattle.rst_watch.specs.Propagators.{IsSettled};

use crate::apply::apply;
use crate::learn::learn;
use crate::levels::{assume, back, open};
use crate::state::{State, start};
use crate::visit::visit;
use rst_clause::Lit;
use rst_outside::NoMemory;
use std::alloc::Global;
use std::marker::Model;

/// Clauses under unit propagation: literals are assumed on levels, propagation adds what the
/// clauses imply, and the last level can be taken back.
///
/// Contracts see the clauses, the trail, how many of its literals were propagated, and how many
/// stood below each level. Each clause watches two literals, and only a clause whose watched
/// literal becomes false is looked at.
#[derive(Drop)]
pub struct Propagator {
    state: State,
}

impl Model for Propagator {
    ghost use Rattle.rst_watch.specs.Propagators.{Propagator'};
    ghost use Rattle.rst_watch.specs.Watching.{IsWatching};

    ghost Value = { Propagator' };

    ghost view = { λ p. record { clauses = p.state.store; trail = p.state.trail; done = p.state.done; floors = p.state.floors } };

    ghost invariant = { λ p. IsWatching p.state };
}

// Propagates all that stands, until a clause is false.
fn propagate_all(s: &mut State) -> Result<Option<usize>, NoMemory>
    requires watching { IsWatching s.old }
    ensures watching { IsWatching s.new }
    ensures store { s.new.store ≡ s.old.store }
    ensures floors { s.new.floors ≡ s.old.floors }
    ensures propagates { IfOk result (λ found. Propagates s.old.store s.old.trail s.new.trail found) }
    ensures settled { IfOk result (λ found. IfNone found (s.new.done ≡ length s.new.trail.lits)) }
    ensures consistent { IfOk result (λ found. IfNone found (IsConsistent s.new.trail.lits)) }
{
    'propagating: while s.done < s.trail.len() {
        let lit = s.trail.get(s.done).opposite();
        let found = visit(s, lit)?;
        if let Some(i) = found {
            return Ok(Some(i));
        }
        s.done += 1;
    }
    Ok(None)
}

impl Propagator {
    /// No clause over the variables 1 to `vars`, and nothing stands.
    pub fn new(alloc: Global, vars: u32) -> Result<Propagator, NoMemory>
        requires { vars < 2 ^ 31 }
        ensures vars { IfOk result (λ p. p.trail.vars ≡ vars) }
        ensures lits { IfOk result (λ p. p.trail.lits ≡ []) }
        ensures clauses { IfOk result (λ p. p.clauses ≡ []) }
        ensures floors { IfOk result (λ p. p.floors ≡ []) }
    {
        let state = start(alloc, vars)?;
        Ok(Propagator { state })
    }

    /// Whether the literal stands.
    pub fn has(&self, lit: Lit) -> bool
        requires { unsigned_abs lit ≤ self.now.trail.vars }
        ensures value { IsTrue result ↔ Contains self.now.trail.lits lit }
        ensures consistent { IsConsistent self.now.trail.lits }
        ensures few { self.now.trail.vars < 2 ^ 31 }
    {
        self.state.trail.has(lit)
    }

    /// The greatest variable.
    pub fn vars(&self) -> u32
        ensures value { result ≡ self.now.trail.vars }
        ensures few { self.now.trail.vars < 2 ^ 31 }
    {
        self.state.trail.vars()
    }

    /// One more clause, where no level is open, and what it implies stands. A clause that is false
    /// is not added. Whether it is false.
    pub fn learn(&mut self, clause: &[Lit]) -> Result<bool, NoMemory>
        requires in_range { AreLiterals self.old.trail.vars clause.now }
        requires root { self.old.floors ≡ [] }
        ensures learns { IfOk result (λ is_false. Learns self.old.clauses self.new.clauses self.old.trail self.new.trail clause.now is_false) }
        ensures vars { self.new.trail.vars ≡ self.old.trail.vars }
        ensures floors { self.new.floors ≡ [] }
    {
        learn(&mut self.state, clause)
    }

    /// Adds what the clauses imply until one of them is false, whose number it answers, or nothing
    /// is left to add.
    pub fn propagate(&mut self) -> Result<Option<usize>, NoMemory>
        ensures propagates { IfOk result (λ found. Propagates self.old.clauses self.old.trail self.new.trail found) }
        ensures settled { IfOk result (λ found. IfNone found (IsSettled self.new)) }
        ensures consistent { IfOk result (λ found. IfNone found (IsConsistent self.new.trail.lits)) }
        ensures clauses { self.new.clauses ≡ self.old.clauses }
        ensures floors { self.new.floors ≡ self.old.floors }
    {
        propagate_all(&mut self.state)
    }

    /// Looks at the clause with the number alone, if there is one, and adds what it implies. Whether
    /// it is false.
    pub fn apply(&mut self, number: usize) -> Result<bool, NoMemory>
        ensures grows { Grows self.old.clauses self.old.trail self.new.trail }
        ensures is_false { IfOk result (λ yes. yes ≡ true → IsFalseAt self.new.clauses self.new.trail.lits number) }
        ensures quiet { IfOk result (λ yes. yes ≡ false → number < length self.new.clauses → IsQuiet self.new.trail.lits (slice_index_or self.new.clauses number [])) }
        ensures vars { self.new.trail.vars ≡ self.old.trail.vars }
        ensures clauses { self.new.clauses ≡ self.old.clauses }
        ensures floors { self.new.floors ≡ self.old.floors }
    {
        apply(&mut self.state, number)
    }

    /// Begins a level, where all that stands was propagated.
    pub fn open(&mut self) -> Result<(), NoMemory>
        requires { IsSettled self.old }
        ensures floors { OnOk result (self.new.floors ≡ length self.old.trail.lits ∷ self.old.floors) }
        ensures clauses { self.new.clauses ≡ self.old.clauses }
        ensures trail { self.new.trail ≡ self.old.trail }
        ensures done { self.new.done ≡ self.old.done }
    {
        open(&mut self.state)
    }

    /// One more literal stands.
    pub fn assume(&mut self, lit: Lit) -> Result<(), NoMemory>
        requires in_range { unsigned_abs lit ≤ self.old.trail.vars }
        requires not_there { Contains self.old.trail.lits lit → ⊥ }
        requires not_opposite { Contains self.old.trail.lits (opposite lit) → ⊥ }
        ensures trail { OnOk result (self.new.trail ≡ pushed self.old.trail lit 0) }
        ensures clauses { self.new.clauses ≡ self.old.clauses }
        ensures floors { self.new.floors ≡ self.old.floors }
    {
        assume(&mut self.state, lit)
    }

    /// Takes the last level back, if one is open: what stood before it stands, and was propagated.
    pub fn back(&mut self)
        ensures lits { (m : ℕ) (rest : List ℕ) → self.old.floors ≡ m ∷ rest → self.new.trail.lits ≡ take m self.old.trail.lits }
        ensures floors { (m : ℕ) (rest : List ℕ) → self.old.floors ≡ m ∷ rest → self.new.floors ≡ rest }
        ensures settled { (m : ℕ) (rest : List ℕ) → self.old.floors ≡ m ∷ rest → IsSettled self.new }
        ensures vars { self.new.trail.vars ≡ self.old.trail.vars }
        ensures clauses { self.new.clauses ≡ self.old.clauses }
    {
        back(&mut self.state)
    }
}
