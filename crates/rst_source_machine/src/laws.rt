//! From an accepted source to the machine of its gates, and back.

ghost use Rattle.std.specs.Prelude.{◌≡◌, ℕ, ◌≤◌, Bool, List};
ghost use Rattle.rst_value.specs.declared.tern.Tern.{Tern};
ghost use Rattle.rst_gate.specs.Machine.{Machine, IsState, IsWord, outs, after, HaveSamePorts, SameAcross, AlignsAcross, NeverAcross};
ghost use Rattle.rst_gate.specs.MachineLaws.{KeepsStates};
ghost use Rattle.rst_gate.specs.Patterns.{IsPattern, PatternSigns};
ghost use Rattle.rst_gate.specs.TernMachine.{KnowsPattern};
ghost use Rattle.rst_gate.specs.Circuits.{Circuit, IsCircuit, IsInOrder, first_gate};
ghost use Rattle.rst_gate.specs.GateMachines.{machine_of, terns_of};
ghost use Rattle.rst_net.specs.Units.{PlainFlat};
ghost use Rattle.rst_cycle.specs.Signals.{width_of};
ghost use Rattle.rst_cycle.specs.Cycle.{IsMachineOf};
ghost use Rattle.rst_flow.specs.declared.net.Net.{Net};
ghost use Rattle.rst_flow.specs.Flows.{Passes};
ghost use Rattle.rst_flow.specs.Results.{IsNet};
ghost use Rattle.rst_design_terms.specs.Gates.{gates_of};
ghost use Rattle.rst_settled.specs.Designs.{IsDesign};
ghost use Rattle.rst_settled.specs.Orderly.{IsOrderly};
ghost use Rattle.rst_settled.specs.Settling.{HasOneMachine};
ghost use Rattle.rst_agreement.specs.Fits.{DesignFits};
ghost use Rattle.rst_accepted.specs.Elaborated.{IsElaborated};
ghost use Rattle.rst_source_machine.specs.Ordered.{ordered, net_design};
ghost use Rattle.rst_source_machine.specs.Alike.{AreAlike};

use rst_accepted_drivers::laws::{
    one_driver, resets_are_inputs, units_drive_once, wires_are_driven,
};
use rst_accepted_units::laws::{expressions_fit, units_are_sound, widths_are_small};

/// Every design that elaboration accepts is one that settles, once its units have an order.
pub fn accepted_designs_are_designs()
    ensures { (flat : PlainFlat) → IsElaborated flat → IsDesign flat }
{
    widths_are_small();
    units_are_sound();
    units_drive_once();
    one_driver();
    wires_are_driven();
    resets_are_inputs();
}

/// Its netlist has its units in order, and all that its units and clocked blocks read, set and compare has the widths that the places
/// ask for.
pub fn netlists_are_orderly()
    ensures orderly { (flat : PlainFlat) (order : List ℕ) → IsElaborated flat → Passes flat order → IsOrderly (ordered flat order) }
    ensures fits { (flat : PlainFlat) (order : List ℕ) → IsElaborated flat → Passes flat order → DesignFits (ordered flat order) }
    ensures widths { (flat : PlainFlat) (order : List ℕ) → IsElaborated flat → (i : ℕ) → width_of (ordered flat order).signals i ≤ 64 }
{
    accepted_designs_are_designs();
    expressions_fit();
}

/// Such a source is the design of exactly one machine (`one`), on states and inputs of the right lengths. The order of the units doesn't
/// change it (`in_order`, `from_order`). A state leads to a state (`keeps_states`).
pub fn sources_are_machines()
    ensures one { (flat : PlainFlat) (order : List ℕ) → IsElaborated flat → Passes flat order → HasOneMachine flat }
    ensures in_order { (flat : PlainFlat) (order : List ℕ) (m : Machine) → Passes flat order → IsMachineOf flat m → IsMachineOf (ordered flat order) m }
    ensures from_order { (flat : PlainFlat) (order : List ℕ) (m : Machine) → Passes flat order → IsMachineOf (ordered flat order) m → IsMachineOf flat m }
    ensures keeps_states { (flat : PlainFlat) (m : Machine) → IsMachineOf flat m → KeepsStates m }
{
    accepted_designs_are_designs();
}

/// The machine of the netlist's gates is the source's (`is`), and every other that is does the same (`alike`).
pub fn gates_are_sources()
    ensures is { (flat : PlainFlat) (order : List ℕ) → IsElaborated flat → Passes flat order
        → IsInOrder (first_gate (gates_of (ordered flat order))) (gates_of (ordered flat order)).gates
        → IsMachineOf flat (machine_of (gates_of (ordered flat order))) }
    ensures alike { (flat : PlainFlat) (order : List ℕ) (m : Machine) → IsElaborated flat → Passes flat order
        → IsInOrder (first_gate (gates_of (ordered flat order))) (gates_of (ordered flat order)).gates
        → IsMachineOf flat m → AreAlike (machine_of (gates_of (ordered flat order))) m }
{
    accepted_designs_are_designs();
    expressions_fit();
}

/// What machines show, where they lead, and which states behave the same is the same of machines that do the same.
pub fn alike_machines()
    ensures both_ways { (l r : Machine) → AreAlike l r → AreAlike r l }
    ensures keep_states { (l r : Machine) → AreAlike l r → KeepsStates l → KeepsStates r }
    ensures outs { (l r : Machine) (state : List Bool) (word : List (List Bool)) → AreAlike l r → KeepsStates l → IsState l state → IsWord l word
        → outs l state word ≡ outs r state word }
    ensures after { (l r : Machine) (state : List Bool) (word : List (List Bool)) → AreAlike l r → KeepsStates l → IsState l state → IsWord l word
        → after l state word ≡ after r state word }
    // of two designs that are compared; one design is the case of equal sides
    ensures same { (l k r n : Machine) (s t : List Bool) → AreAlike l k → AreAlike r n → HaveSamePorts l r → KeepsStates l → KeepsStates r → IsState l s → IsState r t
        → SameAcross l r s t → SameAcross k n s t }
    ensures aligns { (l k r n : Machine) (s t : List Bool) (word : List (List Bool)) → AreAlike l k → AreAlike r n → HaveSamePorts l r → KeepsStates l → KeepsStates r
        → IsState l s → IsState r t → IsWord l word → AlignsAcross l r word s t → AlignsAcross k n word s t }
    ensures never { (l k r n : Machine) (s t : List Bool) → AreAlike l k → AreAlike r n → HaveSamePorts l r → KeepsStates l → KeepsStates r → IsState l s → IsState r t
        → NeverAcross l r s t → NeverAcross k n s t }
    ensures pattern_signs { (l r : Machine) (pattern : List (List Tern)) → AreAlike l r → KeepsStates l → IsPattern l pattern → PatternSigns l pattern
        → PatternSigns r pattern }
{}

/// A pattern is an essential reset sequence of the gates exactly where it is one of the source (`to_source`, `to_gates`), and it is one where
/// three-valued simulation of the gates knows every register behind it (`known`).
pub fn patterns_of_gates()
    ensures to_source { (flat : PlainFlat) (order : List ℕ) (m : Machine) (pattern : List (List Tern)) → IsElaborated flat → Passes flat order
        → IsInOrder (first_gate (gates_of (ordered flat order))) (gates_of (ordered flat order)).gates → IsMachineOf flat m → IsPattern m pattern
        → PatternSigns (machine_of (gates_of (ordered flat order))) pattern → PatternSigns m pattern }
    ensures to_gates { (flat : PlainFlat) (order : List ℕ) (m : Machine) (pattern : List (List Tern)) → IsElaborated flat → Passes flat order
        → IsInOrder (first_gate (gates_of (ordered flat order))) (gates_of (ordered flat order)).gates → IsMachineOf flat m → IsPattern m pattern
        → PatternSigns m pattern → PatternSigns (machine_of (gates_of (ordered flat order))) pattern }
    ensures known { (flat : PlainFlat) (order : List ℕ) (m : Machine) (pattern : List (List Tern)) → IsElaborated flat → Passes flat order
        → IsInOrder (first_gate (gates_of (ordered flat order))) (gates_of (ordered flat order)).gates → IsMachineOf flat m → IsPattern m pattern
        → KnowsPattern (terns_of (gates_of (ordered flat order))) pattern → PatternSigns m pattern }
{
    accepted_designs_are_designs();
    expressions_fit();
}

/// The same of a netlist in memory: it is the source with its units in order (`ordered`), it fits together (`fits`, `widths`), the machine
/// of its gates does what the source's does (`alike`), and a pattern that signs the gates (`signs`), as one does behind which three-valued
/// simulation knows every register (`known`), signs the source.
pub fn nets_are_sources()
    ensures ordered { (flat : PlainFlat) (net : Net) (is : IsNet flat net) → net_design net ≡ ordered flat is.order }
    ensures fits { (flat : PlainFlat) (net : Net) → IsElaborated flat → IsNet flat net → DesignFits (net_design net) }
    ensures widths { (flat : PlainFlat) (net : Net) → IsElaborated flat → IsNet flat net → (i : ℕ) → width_of (net_design net).signals i ≤ 64 }
    ensures alike { (flat : PlainFlat) (net : Net) (gates : Circuit) (m : Machine) → IsElaborated flat → IsNet flat net → gates ≡ gates_of (net_design net)
        → IsCircuit gates → IsMachineOf flat m → AreAlike (machine_of gates) m }
    ensures signs { (flat : PlainFlat) (net : Net) (gates : Circuit) (m : Machine) (pattern : List (List Tern)) → IsElaborated flat → IsNet flat net
        → gates ≡ gates_of (net_design net) → IsCircuit gates → IsMachineOf flat m → IsPattern (machine_of gates) pattern
        → PatternSigns (machine_of gates) pattern → PatternSigns m pattern }
    ensures known { (flat : PlainFlat) (net : Net) (gates : Circuit) (m : Machine) (pattern : List (List Tern)) → IsElaborated flat → IsNet flat net
        → gates ≡ gates_of (net_design net) → IsCircuit gates → IsMachineOf flat m → IsPattern (machine_of gates) pattern
        → KnowsPattern (terns_of gates) pattern → PatternSigns m pattern }
{
    accepted_designs_are_designs();
    expressions_fit();
}
