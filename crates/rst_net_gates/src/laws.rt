//! What the gates of a netlist stand for.

ghost use Rattle.rst_net.specs.Units.{PlainFlat};
ghost use Rattle.rst_gate.specs.Circuits.{IsCircuit};
ghost use Rattle.rst_design_terms.specs.Gates.{gates_of};
ghost use Rattle.rst_net_gates.specs.Meanings.{HasPorts, GatesAreDesigns, ReadsTerms, WeightBounds};

/// In two values they are the machine of the design.
pub fn gates_are_designs()
    ensures { GatesAreDesigns }
{}

/// In three values outputs and next states are the readings of the design's terms.
pub fn three_valued_readings()
    ensures { (flat : PlainFlat) → IsCircuit (gates_of flat) → ReadsTerms flat }
{}

/// They have an input for each bit of the inputs, and a state for each bit of the registers.
pub fn ports()
    ensures { (flat : PlainFlat) → HasPorts flat }
{}

/// Resets, units and clocked blocks together ask for at most as many gates as the design weighs.
pub fn weight_bounds()
    ensures { WeightBounds }
{}
