//! The gates of a design read alike.
ghost use Rattle.std.specs.Prelude.{◌≡◌, List, length};
ghost use Rattle.std.specs.List.{AllByRecursion};
ghost use Rattle.rst_value.specs.declared.tern.Tern.{Tern};
ghost use Rattle.rst_gate.specs.Circuits.{IsCircuit};
ghost use Rattle.rst_gate.specs.GateMachines.{terns_of};
ghost use Rattle.rst_gate.specs.TernMachine.{KnowsPattern, pattern_after};
ghost use Rattle.rst_sim.specs.Trails.{pattern_trail};
ghost use Rattle.rst_net.specs.Units.{PlainFlat};
ghost use Rattle.rst_design_terms.specs.Gates.{gates_of, input_bits, state_bits};
ghost use Rattle.rst_known.specs.Readings.{design_terns};

/// The gates of a design have as many inputs and states as the design has bits of inputs and of registers (`sizes`), and along every
/// pattern of inputs they go through the three-valued states that the design's terms go through (`trails`). So they know the pattern
/// exactly where the terms do (`knows`).
pub fn gates_read_alike()
    ensures inputs { (flat : PlainFlat) → (gates_of flat).inputs ≡ input_bits flat }
    ensures states { (flat : PlainFlat) → (gates_of flat).states ≡ state_bits flat }
    ensures trails { (flat : PlainFlat) (state : List Tern) (pattern : List (List Tern)) → IsCircuit (gates_of flat) → length state ≡ state_bits flat
        → AllByRecursion (λ (places : List Tern). length places ≡ input_bits flat) pattern
        → pattern_trail (terns_of (gates_of flat)) state pattern ≡ pattern_trail (design_terns flat) state pattern }
    ensures behind { (flat : PlainFlat) (state : List Tern) (pattern : List (List Tern)) → IsCircuit (gates_of flat) → length state ≡ state_bits flat
        → AllByRecursion (λ (places : List Tern). length places ≡ input_bits flat) pattern
        → pattern_after (terns_of (gates_of flat)) state pattern ≡ pattern_after (design_terns flat) state pattern }
{}
