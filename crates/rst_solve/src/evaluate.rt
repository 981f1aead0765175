// Whether values of all variables solve clauses.
ghost use Rattle.std.specs.Prelude.{◌≡◌, ◌≤◌, ℕ, IsTrue, IfOk, length, take};
ghost use Rattle.rst_clause.specs.Literals.{literal_holds, Holds, Solves};
ghost use Rattle.rst_solve.specs.Choices.{choice_of};

use rst_clause::{ClauseStore, Lit};

// What the literal says under the values of the variables from 1 on; those beyond them are false.
fn holds(values: &[bool], lit: Lit) -> bool
    ensures { result ≡ literal_holds (choice_of values.now) lit }
{
    let i = lit.variable() as usize - 1;
    let value = i < values.len() && values[i];
    if lit.number() > 0 { value } else { !value }
}

// Whether one of the literals holds.
fn one_holds(values: &[bool], clause: &[Lit]) -> bool
    ensures { IsTrue result → Holds (choice_of values.now) clause.now }
{
    for i in 0..clause.len() {
        if holds(values, clause[i]) {
            return true;
        }
    }
    false
}

/// Whether each clause holds under the values of the variables from 1 on.
pub fn solves(values: &[bool], clauses: &ClauseStore) -> bool
    ensures { IsTrue result → Solves (choice_of values.now) clauses.now }
{
    for i in 0..clauses.len() {
        if !one_holds(values, clauses.get(i)) {
            return false;
        }
    }
    true
}
