//! What the gates of statements stand for.

ghost use Rattle.rst_value.specs.Terns.{known};
ghost use Rattle.rst_gate.specs.Operations.{on_bits, on_terns};
ghost use Rattle.rst_statement_terms.specs.StatementLaws.{StatementsAre};

/// The edges that a statement leaves the signals' bits with have the values of its terms, in two and in three values.
pub fn statements()
    ensures two { StatementsAre (λ b. b) on_bits }
    ensures three { StatementsAre known on_terns }
{}
