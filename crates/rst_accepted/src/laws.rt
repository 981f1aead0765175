//! What holds of every design that elaboration accepts.

ghost use Rattle.rst_net.specs.Units.{PlainFlat};
ghost use Rattle.rst_flow.specs.Nets.{HasFewBits};
ghost use Rattle.rst_accepted.specs.Elaborated.{IsElaborated};

/// It has at most 512 bits of registers, 256 of inputs and 256 of outputs.
pub fn few_bits()
    ensures { (flat : PlainFlat) → IsElaborated flat → HasFewBits flat.signals flat.outputs }
{}
