// A look for a literal to watch.
ghost use Rattle.std.specs.Prelude.{◌<◌, ◌≤◌, ◌^◌, ℕ, length, IfSome, IfNone};
ghost use Rattle.std.specs.List.{Contains};
ghost use Rattle.rst_clause.specs.Literals.{AreLiterals};
ghost use Rattle.rst_clause.specs.Trails.{IsConsistent};
ghost use Rattle.rst_watch.specs.Looks.{Sees, IsOther, AreFalseWithin, AreFalseBut};

use rst_clause::{Lit, Trail};

/// What a look at a clause finds.
#[derive(Clone, Copy)]
pub(crate) enum Seen {
    /// A literal that stands.
    True,
    /// An open literal that isn't the one left out.
    Open(Lit),
    /// All its literals are false but the one left out, which doesn't stand.
    Last,
}

/// Looks for a literal of the clause that stands, or that is open and not `other`.
pub(crate) fn look(trail: &Trail, clause: &[Lit], other: Lit) -> Seen
    requires in_range { AreLiterals trail.now.vars clause.now }
    requires few { trail.now.vars < 2 ^ 31 }
    ensures { Sees trail.now.lits clause.now other result }
{
    for i in 0..clause.len() {
        let lit = clause[i];
        if trail.has(lit) {
            return Seen::True;
        }
        if !lit.is(other) && !trail.has(lit.opposite()) {
            return Seen::Open(lit);
        }
    }
    Seen::Last
}

// A literal of the clause, from one place on and before another, that isn't false and isn't
// `other`.
fn another_within(trail: &Trail, clause: &[Lit], from: usize, end: usize, other: Lit) -> Option<Lit>
    requires in_range { AreLiterals trail.now.vars clause.now }
    requires few { trail.now.vars < 2 ^ 31 }
    requires end { end ≤ length clause.now }
    ensures found { IfSome result (λ l. IsOther trail.now.lits clause.now other l) }
    ensures none { IfNone result (AreFalseWithin trail.now.lits clause.now other from end) }
{
    for i in from..end {
        let lit = clause[i];
        if !lit.is(other) && !trail.has(lit.opposite()) {
            return Some(lit);
        }
    }
    None
}

// A place of the clause, which the number chooses.
fn place(clause: &[Lit], number: usize) -> usize
    ensures { result ≤ length clause.now }
{
    let count = clause.len();
    if count == 0 { 0 } else { number % count }
}

/// A literal of the clause that isn't false and isn't `other`, which doesn't stand. The look begins
/// at a place that the number chooses, so that literals which are false for long aren't gone over
/// each time.
pub(crate) fn another(trail: &Trail, clause: &[Lit], number: usize, other: Lit) -> Option<Lit>
    requires in_range { AreLiterals trail.now.vars clause.now }
    requires few { trail.now.vars < 2 ^ 31 }
    requires consistent { IsConsistent trail.now.lits }
    requires not_there { Contains trail.now.lits other → ⊥ }
    ensures found { IfSome result (λ l. IsOther trail.now.lits clause.now other l) }
    ensures none { IfNone result (AreFalseBut trail.now.lits clause.now other) }
{
    let from = place(clause, number);
    if let Some(lit) = another_within(trail, clause, from, clause.len(), other) {
        return Some(lit);
    }
    another_within(trail, clause, 0, from, other)
}
