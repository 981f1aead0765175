ghost use Rattle.std.specs.Prelude.{◌≡◌, ◌<◌, ◌^◌, ℤ, List, unsigned_abs};
ghost use Rattle.rst_clause.specs.Literals.{AreLiterals};
ghost use Rattle.rst_clause.specs.Looks.{Says};

use crate::{Lit, Trail};

/// What a clause is on a trail.
#[derive(Clone, Copy, Debug)]
pub enum Status {
    /// All its literals are false.
    False,
    /// All its literals but this one are false, and this one is open.
    Unit(Lit),
    /// Neither of both.
    Quiet,
}

/// What the clause is on the trail. A literal that stands twice in it counts once.
pub fn status_of(trail: &Trail, clause: &[Lit]) -> Status
    requires in_range { AreLiterals trail.now.vars clause.now }
    requires few { trail.now.vars < 2 ^ 31 }
    ensures { Says trail.now.lits clause.now result }
{
    let mut open: Option<Lit> = None;
    for i in 0..clause.len() {
        let lit = clause[i];
        if trail.has(lit) {
            return Status::Quiet;
        }
        if !trail.has(lit.opposite()) {
            match open {
                None => open = Some(lit),
                Some(other) => {
                    if !other.is(lit) {
                        return Status::Quiet;
                    }
                }
            }
        }
    }
    match open {
        None => Status::False,
        Some(lit) => Status::Unit(lit),
    }
}
