//! What the gates of designs stand for.

ghost use Rattle.rst_value.specs.Terns.{known};
ghost use Rattle.rst_gate.specs.Operations.{on_bits, on_terns};
ghost use Rattle.rst_design_terms.specs.DesignLaws.{DesignsAre};

/// The output and next edges of a design's gates have the values of its terms, in two and in three values.
pub fn designs()
    ensures two { DesignsAre (λ b. b) on_bits }
    ensures three { DesignsAre known on_terns }
{}
