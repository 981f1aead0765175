//! Exactly one settled valuation for each state and input.

ghost use Rattle.std.specs.Prelude.{ℕ, Bool, List};
ghost use Rattle.rst_net.specs.Units.{PlainFlat};
ghost use Rattle.rst_flow.specs.Flows.{Passes};
ghost use Rattle.rst_settled.specs.Designs.{IsDesign};
ghost use Rattle.rst_settled.specs.Orderly.{IsOrderly};
ghost use Rattle.rst_settled.specs.Settling.{HasOneSettled, HasOneMachine};

/// A design whose units stand in order has exactly one settled valuation for each state and input.
pub fn designs_in_order_settle()
    ensures { (flat : PlainFlat) (state input : List Bool) → IsOrderly flat → HasOneSettled flat state input }
{}

/// And so has a design that passes all rows, in whatever order its units stand.
pub fn accepted_designs_settle()
    ensures { (flat : PlainFlat) (order : List ℕ) (state input : List Bool) → IsDesign flat → Passes flat order
        → HasOneSettled flat state input }
{}

/// So such a design is the design of exactly one machine, on states and inputs of the right lengths.
pub fn accepted_designs_are_machines()
    ensures { (flat : PlainFlat) (order : List ℕ) → IsDesign flat → Passes flat order → HasOneMachine flat }
{}
