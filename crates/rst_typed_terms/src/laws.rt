//! What the terms of a typed expression spell.

ghost use Rattle.std.specs.Prelude.{◌≡◌, ℕ, Bool, List, length};
ghost use Rattle.rst_width.specs.Typed.{Typed, shape_of};
ghost use Rattle.rst_width.specs.Values.{Valuation, value};
ghost use Rattle.rst_width.specs.Fit.{IsFit};
ghost use Rattle.rst_width.specs.Reads.{ReadsInside};
ghost use Rattle.rst_terms.specs.Algebras.{bits};
ghost use Rattle.rst_terms.specs.Spelling.{Spells};
ghost use Rattle.rst_typed_terms.specs.Expressions.{expression_bits};
ghost use Rattle.rst_typed_terms.specs.Valuations.{AreSpelled};

/// In two values the bits of an expression spell its value, wherever the bits of the signals spell theirs.
pub fn expressions_spell_values()
    ensures { (widths : ℕ → ℕ) (words : ℕ → List Bool) (signals : Valuation) (e : Typed) → IsFit e → ReadsInside widths e → AreSpelled widths words signals → Spells (expression_bits bits words tt e).1 (value signals e) }
{}
