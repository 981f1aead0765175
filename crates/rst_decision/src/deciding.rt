// Three-valued simulation from power-up, and what it decides.
ghost use Rattle.std.specs.Prelude.{◌≡◌, ◌+◌, ◌↔◌, IfOk, IsTrue, Some, length, replicate, slice_get};
ghost use Rattle.std.specs.List.{AllByRecursion};
ghost use Rattle.rst_value.specs.declared.tern.Tern.TheVariants.{Unknown};
ghost use Rattle.rst_gate.specs.Patterns.{IsPattern};
ghost use Rattle.rst_gate.specs.TernMachine.{IsKnown, KnowsPattern, pattern_after};
ghost use Rattle.rst_gate.specs.GateMachines.{machine_of, terns_of};
ghost use Rattle.rst_sim.specs.Trails.{pattern_trail};

use rst_gate::{Cube, Gates, Pattern};
use rst_outside::NoMemory;
use rst_sim::{TernTrace, tern_run_free};
use rst_value::Tern;
use std::alloc::Global;

// So many places that aren't known.
fn all_unknown(alloc: Global, count: u32) -> Result<Cube, NoMemory>
    ensures { IfOk result (λ cube. cube ≡ replicate count Unknown) }
{
    Ok(Cube::from_vec(vec![in alloc; Tern::Unknown; count as usize]?))
}

// Whether each place is known.
fn all_known(places: &[Tern]) -> bool
    ensures { IsTrue result ↔ AllByRecursion IsKnown places.now }
{
    for place in places {
        if *place == Tern::Unknown {
            return false;
        }
    }
    true
}

/// The registers in three values: at power-up, when none is known, and behind each clock cycle of the pattern, with X at each free
/// bit.
///
/// Each cube of the pattern has a place for each input. It is refused for want of memory alone.
pub fn known_states(alloc: Global, gates: &Gates, pattern: &Pattern) -> Result<TernTrace, NoMemory>
    requires { IsPattern (machine_of gates.now) pattern.now }
    ensures states { IfOk result (λ t. t.states.items ≡ pattern_trail (terns_of gates.now) (replicate gates.now.states Unknown) pattern.now) }
    ensures count { IfOk result (λ t. length t.states.items ≡ length pattern.now + 1) }
    ensures last { IfOk result (λ t. slice_get t.states.items (length pattern.now) ≡ Some (pattern_after (terns_of gates.now) (replicate gates.now.states Unknown) pattern.now)) }
{
    let start = all_unknown(alloc, gates.states)?;
    tern_run_free(alloc, gates, &start, pattern)
}

/// Whether no register is X behind the pattern, in three-valued simulation from power-up and with X at each free bit.
///
/// Each cube of the pattern has a place for each input. It is refused for want of memory alone.
pub fn knows(alloc: Global, gates: &Gates, pattern: &Pattern) -> Result<bool, NoMemory>
    requires { IsPattern (machine_of gates.now) pattern.now }
    ensures { IfOk result (λ known. IsTrue known ↔ KnowsPattern (terns_of gates.now) pattern.now) }
{
    let trace = known_states(alloc, gates, pattern)?;
    let last = pattern.len();
    Ok(all_known(trace.states[last].as_slice()))
}
