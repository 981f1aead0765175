ghost use Rattle.std.specs.Prelude.{◌≡◌, ◌↔◌, ◌^◌, ◌<◌, ◌≤◌, ℤ, pos, IsTrue, unsigned_abs};
ghost use Rattle.rst_clause.specs.Literals.{opposite};

use std::marker::Model;

/// A literal: a variable, numbered from 1, or its negation, as the nonzero number of DIMACS files.
///
/// Contracts see it as that number. Any nonzero `i32` is one, the least number too, whose
/// variable is above every variable of the clauses here.
#[derive(Clone, Copy, Debug)]
pub struct Lit(i32);

impl Model for Lit {
    ghost use Rattle.std.specs.Prelude.{ℤ, ◌<◌, unsigned_abs};

    ghost Value = { ℤ };

    ghost view = { λ l. l.0 };

    ghost inverse = { λ z. record { 0 = z } };

    ghost invariant = { λ l. 0 < unsigned_abs l.0 };
}

impl Lit {
    /// The literal of the number.
    pub fn new(number: i32) -> Lit
        requires { 0 < unsigned_abs number }
        ensures { result ≡ number }
    {
        Lit(number)
    }

    /// The variable itself.
    pub fn of_variable(variable: u32) -> Lit
        requires nonzero { 0 < variable }
        requires fits { variable < 2 ^ 31 }
        ensures { result ≡ pos variable }
    {
        Lit(variable as i32)
    }

    /// The signed number.
    pub fn number(&self) -> i32
        ensures value { result ≡ self.now }
        ensures nonzero { 0 < unsigned_abs self.now }
    {
        self.0
    }

    /// The number of the literal's variable.
    pub fn variable(&self) -> u32
        ensures value { result ≡ unsigned_abs self.now }
        ensures nonzero { 0 < unsigned_abs self.now }
    {
        self.0.unsigned_abs()
    }

    /// Whether the two are the same literal.
    pub fn is(&self, other: Lit) -> bool
        ensures { IsTrue result ↔ (self.now ≡ other) }
    {
        self.0 == other.0
    }

    /// The literal of the same variable with the other sign.
    pub fn opposite(&self) -> Lit
        requires { unsigned_abs self.now < 2 ^ 31 }
        ensures { result ≡ opposite self.now }
    {
        Lit(-self.0)
    }
}
