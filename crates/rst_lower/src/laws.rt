//! What the gates of an expression stand for.

ghost use Rattle.rst_value.specs.Terns.{known};
ghost use Rattle.rst_gate.specs.Operations.{on_bits, on_terns};
ghost use Rattle.rst_lower.specs.ExpressionLaws.{ExpressionsAre, ExpressionsSpellValues};

/// The edges of an expression have the values of its terms, in two and in three values. In two values they spell the expression's
/// value.
pub fn expressions()
    ensures two { ExpressionsAre (λ b. b) on_bits }
    ensures three { ExpressionsAre known on_terns }
    ensures value { ExpressionsSpellValues }
{}
