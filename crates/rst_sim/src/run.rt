ghost use Rattle.std.specs.Prelude.{◌≡◌, ◌+◌, IfOk, length, slice_get};
ghost use Rattle.rst_gate.specs.Machine.{IsState, IsWord, outs, after};
ghost use Rattle.rst_gate.specs.Patterns.{IsPattern};
ghost use Rattle.rst_gate.specs.TernMachine.{pattern_after, tern_after};
ghost use Rattle.rst_gate.specs.GateMachines.{machine_of, terns_of};
ghost use Rattle.rst_sim.specs.Trails.{pattern_trail, tern_trail};

use crate::cycle::{tern_cycle, two_cycle};
use rst_gate::{Bits, Cube, Gates, Pattern, Sequence, known_pattern};
use rst_outside::NoMemory;
use std::alloc::Global;

/// A run in two values: the outputs that each cycle shows, and the state behind the last.
#[derive(Debug, Drop)]
pub struct Trace {
    pub outs: Vec<Bits>,
    pub last: Bits,
}

/// A run in three values: the state before the first cycle, and the state behind each.
#[derive(Debug, Drop)]
pub struct TernTrace {
    pub states: Vec<Cube>,
}

/// Runs the gates from a state along a sequence of inputs.
///
/// The state has a bit for each register, and each input a bit for each input of the gates. It is
/// refused for want of memory alone.
pub fn two_run(
    alloc: Global,
    gates: &Gates,
    state: &Bits,
    inputs: &Sequence,
) -> Result<Trace, NoMemory>
    requires state { IsState (machine_of gates.now) state.now }
    requires word { IsWord (machine_of gates.now) inputs.now }
    ensures outs { IfOk result (λ t. t.outs.items ≡ outs (machine_of gates.now) state.now inputs.now) }
    ensures last { IfOk result (λ t. t.last ≡ after (machine_of gates.now) state.now inputs.now) }
{
    let mut shown = Vec::new(alloc);
    let mut current = Bits::from_slice(alloc, state.as_slice())?;
    for input in inputs.as_slice() {
        let frame = two_cycle(alloc, gates, current.as_slice(), input.as_slice())?;
        shown.push(Bits::from_vec(frame.outs))?;
        current = Bits::from_vec(frame.nexts);
    }
    Ok(Trace {
        outs: shown,
        last: current,
    })
}

/// Runs the gates in three values from any cube of states along a pattern of inputs, whose free bits
/// are X.
///
/// The start has a place for each register, and each cube of the pattern one for each input. The
/// trace has one state more than there are cycles, the start first (`states`, `count`), and ends
/// with the state behind the whole pattern (`last`). It is refused for want of memory alone.
pub fn tern_run_free(
    alloc: Global,
    gates: &Gates,
    start: &Cube,
    inputs: &Pattern,
) -> Result<TernTrace, NoMemory>
    requires state { length start.now ≡ gates.now.states }
    requires pattern { IsPattern (machine_of gates.now) inputs.now }
    ensures states { IfOk result (λ t. t.states.items ≡ pattern_trail (terns_of gates.now) start.now inputs.now) }
    ensures count { IfOk result (λ t. length t.states.items ≡ length inputs.now + 1) }
    ensures last { IfOk result (λ t. slice_get t.states.items (length inputs.now) ≡ Some (pattern_after (terns_of gates.now) start.now inputs.now)) }
{
    let mut states = Vec::new(alloc);
    let mut current = Cube::from_slice(alloc, start.as_slice())?;
    for input in inputs.as_slice() {
        let frame = tern_cycle(alloc, gates, current.as_slice(), input.as_slice())?;
        states.push(current)?;
        current = Cube::from_vec(frame.nexts);
    }
    states.push(current)?;
    Ok(TernTrace { states })
}

/// Runs the gates in three values from any cube of states along a sequence of known inputs: the
/// pattern without free bits.
///
/// The start has a place for each register. The trace has one state more than there are inputs,
/// the start first (`states`, `count`), and ends with the state behind the whole sequence
/// (`last`). It is refused for want of memory alone.
pub fn tern_run(
    alloc: Global,
    gates: &Gates,
    start: &Cube,
    inputs: &Sequence,
) -> Result<TernTrace, NoMemory>
    requires state { length start.now ≡ gates.now.states }
    requires word { IsWord (machine_of gates.now) inputs.now }
    ensures states { IfOk result (λ t. t.states.items ≡ tern_trail (terns_of gates.now) start.now inputs.now) }
    ensures count { IfOk result (λ t. length t.states.items ≡ length inputs.now + 1) }
    ensures last { IfOk result (λ t. slice_get t.states.items (length inputs.now) ≡ Some (tern_after (terns_of gates.now) start.now inputs.now)) }
{
    let pattern = known_pattern(alloc, inputs.as_slice())?;
    tern_run_free(alloc, gates, start, &pattern)
}
