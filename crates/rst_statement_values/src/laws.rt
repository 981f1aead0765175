//! What the terms of statements spell.

ghost use Rattle.std.specs.Prelude.{ℕ, Bool};
ghost use Rattle.rst_net.specs.Statements.{Statement};
ghost use Rattle.rst_cycle.specs.Effects.{Progress, effect};
ghost use Rattle.rst_terms.specs.Algebras.{bits};
ghost use Rattle.rst_statement_terms.specs.Targets.{Words};
ghost use Rattle.rst_statement_terms.specs.Statements.{Sight, statement_bits};
ghost use Rattle.rst_statement_values.specs.Fits.{StatementFits, blocking_of};
ghost use Rattle.rst_statement_values.specs.Agreement.{Agrees};

/// In two values the bits that a statement leaves the signals with spell its effect, wherever those before it spell how far its
/// block had come.
pub fn statements_spell_effects()
    ensures { (room : ℕ → ℕ) (sight : Sight Bool) (words : Words Bool) (p : Progress) (st : Statement) → StatementFits room (blocking_of sight) st → Agrees room sight words p → Agrees room sight (statement_bits bits sight tt words st).1 (effect st p) }
{}
