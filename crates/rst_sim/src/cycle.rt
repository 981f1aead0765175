ghost use Rattle.std.specs.Prelude.{◌≡◌, IfOk, length};
ghost use Rattle.rst_gate.specs.Machine.{IsState};
ghost use Rattle.rst_gate.specs.GateMachines.{machine_of, terns_of};

use rst_gate::{Frame, Gates, eval};
use rst_outside::NoMemory;
use rst_value::{Tern, TernDomain, TwoDomain};
use std::alloc::Global;

/// One cycle in two values: the outputs for a state and an input, and the state behind the edge.
///
/// The state has a bit for each register, and the input one for each input of the gates. It is
/// refused for want of memory alone.
pub fn two_cycle(
    alloc: Global,
    gates: &Gates,
    state: &[bool],
    input: &[bool],
) -> Result<Frame<bool>, NoMemory>
    requires state { IsState (machine_of gates.now) state.now }
    requires input { length input.now ≡ gates.now.inputs }
    ensures outs { IfOk result (λ f. f.outs ≡ (machine_of gates.now).out state.now input.now) }
    ensures nexts { IfOk result (λ f. f.nexts ≡ (machine_of gates.now).step state.now input.now) }
    ensures each_out { IfOk result (λ f. length f.outs ≡ length gates.now.outs) }
    ensures each_next { IfOk result (λ f. length f.nexts ≡ gates.now.states) }
{
    eval(alloc, gates, &mut TwoDomain, input, state)
}

/// One cycle in three values, of a state and an input that may each be X in places.
///
/// The state has a place for each register, and the input one for each input of the gates. It is
/// refused for want of memory alone.
pub fn tern_cycle(
    alloc: Global,
    gates: &Gates,
    state: &[Tern],
    input: &[Tern],
) -> Result<Frame<Tern>, NoMemory>
    requires state { length state.now ≡ gates.now.states }
    requires input { length input.now ≡ gates.now.inputs }
    ensures outs { IfOk result (λ f. f.outs ≡ (terns_of gates.now).out state.now input.now) }
    ensures nexts { IfOk result (λ f. f.nexts ≡ (terns_of gates.now).step state.now input.now) }
    ensures each_out { IfOk result (λ f. length f.outs ≡ length gates.now.outs) }
    ensures each_next { IfOk result (λ f. length f.nexts ≡ gates.now.states) }
{
    eval(alloc, gates, &mut TernDomain, input, state)
}
