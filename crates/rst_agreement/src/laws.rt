//! The way back from gates to the design.

ghost use Rattle.rst_net.specs.Units.{PlainFlat};
ghost use Rattle.rst_gate.specs.Circuits.{IsInOrder, first_gate};
ghost use Rattle.rst_gate.specs.GateMachines.{machine_of};
ghost use Rattle.rst_cycle.specs.Cycle.{IsMachineOf};
ghost use Rattle.rst_design_terms.specs.Gates.{gates_of};
ghost use Rattle.rst_settled.specs.Orderly.{IsOrderly};
ghost use Rattle.rst_agreement.specs.Fits.{DesignFits};

/// The machine of a design's gates is the design's: on all states and inputs of the right lengths it shows what the settled valuation
/// shows, and leads to the state that the clocked blocks leave.
pub fn gates_are_designs()
    ensures { (flat : PlainFlat) → IsOrderly flat → DesignFits flat → IsInOrder (first_gate (gates_of flat)) (gates_of flat).gates → IsMachineOf flat (machine_of (gates_of flat)) }
{}
