// The registers that three-valued simulation knows behind a pattern, and those of them that are marked.
ghost use Rattle.std.specs.Prelude.{◌≡◌, map, IfOk};
ghost use Rattle.rst_gate.specs.Patterns.{IsPattern};
ghost use Rattle.rst_gate.specs.GateMachines.{machine_of};
ghost use Rattle.rst_pair.specs.Sides.{AreSides};
ghost use Rattle.rst_relation.specs.Decisions.{one_design, is_bit, AreMarkedBehind};

use rst_decision::known_states;
use rst_gate::{Bits, Gates, Pattern};
use rst_outside::NoMemory;
use rst_sim::closed_equal;
use rst_value::Tern;
use std::alloc::Global;

fn is_bit(place: Tern) -> bool
    ensures { result ≡ is_bit place }
{
    match place {
        Tern::Zero | Tern::One => true,
        Tern::Unknown => false,
    }
}

// Of each place, whether it is a bit.
fn known_places(alloc: Global, places: &[Tern]) -> Result<Bits, NoMemory>
    ensures { IfOk result (λ bits. bits ≡ map is_bit places.now) }
{
    let mut bits = Bits::new(alloc);
    for place in places {
        bits.push(is_bit(*place))?;
    }
    Ok(bits)
}

// Both sides are the same circuit.
pub(crate) fn are_sides(gates: &Gates)
    ensures { AreSides (one_design gates.now) }
{
    let _states = gates.states;
}

// The marked registers: the closed set of those that are known behind the pattern.
pub(crate) fn marked(alloc: Global, gates: &Gates, pattern: &Pattern) -> Result<Bits, NoMemory>
    requires { IsPattern (machine_of gates.now) pattern.now }
    ensures { IfOk result (λ equal. AreMarkedBehind gates.now pattern.now equal) }
{
    are_sides(gates);
    let trace = known_states(alloc, gates, pattern)?;
    let last = pattern.len();
    let known = known_places(alloc, trace.states[last].as_slice())?;
    closed_equal(alloc, gates, &known)
}
