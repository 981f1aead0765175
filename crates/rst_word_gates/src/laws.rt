//! What the gates of the operators stand for.

ghost use Rattle.rst_value.specs.Terns.{known};
ghost use Rattle.rst_gate.specs.Operations.{on_bits, on_terns};
ghost use Rattle.rst_word_gates.specs.GateLaws.{WordsAre};

/// The edges of a word's operator have the values of the operator's recurrence, in two and in three values.
pub fn words()
    ensures two { WordsAre (λ b. b) on_bits }
    ensures three { WordsAre known on_terns }
{}
