ghost use Rattle.std.specs.Prelude.{◌≡◌, ◌≢◌, ◌↔◌, ℕ, ◌+◌, ◌*◌, ◌^◌, ◌<◌, ◌≤◌, ℤ, List, [], ◌∷◌, ◌++◌, length, take, slice_set, IfOk, OnOk, OnErr, IsTrue, slice_index_or, unsigned_abs};
ghost use Rattle.std.specs.List.{Contains};
ghost use Rattle.rst_clause.specs.Literals.{opposite, IsLiteral};
ghost use Rattle.rst_clause.specs.Trails.{place_of, IsConsistent, pushed};

use crate::Lit;
use rst_outside::NoMemory;
use std::alloc::Global;
use std::marker::Model;

/// The literals that stand in unit propagation, in the order in which they came: over the
/// variables 1 to a bound, none twice and none beside its opposite.
///
/// With each literal stands the number of the clause that implied it.
#[derive(Debug, Drop)]
pub struct Trail {
    vars: u32,
    lits: Vec<Lit>,
    reasons: Vec<usize>,
    marks: Vec<bool>,
}

impl Model for Trail {
    ghost use Rattle.rst_clause.specs.Trails.{Trail', AreMarks};

    ghost Value = { Trail' };

    ghost view = { λ t. record { vars = t.vars; lits = t.lits.items; reasons = t.reasons.items } };

    ghost invariant = { λ t. AreMarks t.vars t.lits.items t.reasons.items t.marks.items };
}

pub(crate) fn place_of(lit: Lit) -> usize
    ensures value { result ≡ place_of lit }
    ensures fits { result < 2 ^ 33 }
    ensures nonzero { 0 < unsigned_abs lit }
{
    let twice = 2 * (lit.variable() as usize);
    if lit.number() < 0 { twice + 1 } else { twice }
}

impl Trail {
    /// No literal stands; NoMemory where there is no memory for the marks.
    pub fn new(alloc: Global, vars: u32) -> Result<Trail, NoMemory>
        requires { vars < 2 ^ 31 }
        ensures { IfOk result (λ t. (t.vars ≡ vars) × (t.lits ≡ [])) }
    {
        let size = 2 * (vars as usize) + 2;
        let slots = vars as usize + 1;
        let marks = vec![in alloc; false; size]?;
        let reasons = vec![in alloc; 0usize; slots]?;
        Ok(Trail {
            vars,
            lits: Vec::new(alloc),
            reasons,
            marks,
        })
    }

    /// Whether the literal stands.
    pub fn has(&self, lit: Lit) -> bool
        requires { unsigned_abs lit ≤ self.now.vars }
        ensures value { IsTrue result ↔ Contains self.now.lits lit }
        ensures consistent { IsConsistent self.now.lits }
        ensures few { self.now.vars < 2 ^ 31 }
    {
        self.marks[place_of(lit)]
    }

    /// The greatest variable.
    pub fn vars(&self) -> u32
        ensures { result ≡ self.now.vars }
    {
        self.vars
    }

    /// The number of literals that stand.
    pub fn len(&self) -> usize
        ensures value { result ≡ length self.now.lits }
        ensures room { result ≤ 2 * self.now.vars + 2 }
        ensures consistent { IsConsistent self.now.lits }
    {
        self.lits.len()
    }

    /// The literal at the place, from 0.
    pub fn get(&self, i: usize) -> Lit
        requires { i < length self.now.lits }
        ensures value { result ≡ slice_index_or self.now.lits i result }
        ensures in_range { IsLiteral self.now.vars result }
    {
        self.lits[i]
    }

    /// One more literal stands, by the clause of this number; after NoMemory all is as before.
    pub fn push(&mut self, lit: Lit, reason: usize) -> Result<(), NoMemory>
        requires in_range { unsigned_abs lit ≤ self.old.vars }
        requires not_there { Contains self.old.lits lit → ⊥ }
        requires not_opposite { Contains self.old.lits (opposite lit) → ⊥ }
        ensures ok { OnOk result (self.new ≡ pushed self.old lit reason) }
        ensures err { OnErr result (self.new ≡ self.old) }
        ensures slot { unsigned_abs lit < length self.old.reasons }
        ensures consistent { OnOk result (IsConsistent self.new.lits) }
    {
        self.lits.push(lit)?;
        self.marks[place_of(lit)] = true;
        self.reasons[lit.variable() as usize] = reason;
        Ok(())
    }

    /// The number of the clause that implied the literal.
    pub fn reason(&self, lit: Lit) -> usize
        requires { unsigned_abs lit ≤ self.now.vars }
        ensures { result ≡ slice_index_or self.now.reasons (unsigned_abs lit) 0 }
    {
        self.reasons[lit.variable() as usize]
    }

    /// Only the first `n` literals stand.
    pub fn truncate(&mut self, n: usize)
        ensures { self.new ≡ record self.old { lits = take n self.old.lits } }
    {
        while self.lits.len() > n {
            if let Some(lit) = self.lits.pop() {
                self.marks[place_of(lit)] = false;
            }
        }
    }
}
