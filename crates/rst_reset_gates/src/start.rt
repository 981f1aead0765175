// The wires before any gate.
ghost use Rattle.std.specs.Prelude.{◌≡◌, ◌+◌, ◌^◌, ◌≤◌, ◌<◌, map, IfOk};
ghost use Rattle.rst_net.specs.declared.signal.Role.TheVariants.{Input, Register};
ghost use Rattle.rst_net.specs.Units.{plain_signal};
ghost use Rattle.rst_cycle.specs.Signals.{same_role};
ghost use Rattle.rst_reset_gates.specs.NodeWords.{taken, role_bits, node_word, node_words, blank_words};

use crate::bits::{nodes, zeros};
use rst_gate::Edge;
use rst_lower::Wires;
use rst_net::{Role, Signal};
use rst_outside::NoMemory;
use std::alloc::Global;

fn is_input(role: Role) -> bool
    ensures { result ≡ same_role role Input }
{
    match role {
        Role::Input => true,
        Role::Clock | Role::Register | Role::Block | Role::Wire | Role::Idle => false,
    }
}

/// Whether a signal with this role is a register.
pub fn is_register(role: Role) -> bool
    ensures { result ≡ same_role role Register }
{
    match role {
        Role::Register => true,
        Role::Clock | Role::Input | Role::Block | Role::Wire | Role::Idle => false,
    }
}

// How many bits of the inputs a signal takes.
fn input_width(signal: &Signal) -> u32
    ensures { result ≡ taken Input signal.now.role signal.now.shape.width }
{
    if is_input(signal.role) {
        signal.shape.width as u32
    } else {
        0
    }
}

// How many bits of the state a signal takes.
fn state_width(signal: &Signal) -> u32
    ensures { result ≡ taken Register signal.now.role signal.now.shape.width }
{
    if is_register(signal.role) {
        signal.shape.width as u32
    } else {
        0
    }
}

/// How many bits the inputs have together.
pub fn input_bits(signals: &[Signal]) -> u32
    requires { role_bits Input (map plain_signal signals.now) < 2 ^ 32 }
    ensures { result ≡ role_bits Input (map plain_signal signals.now) }
{
    let mut sum = 0u32;
    for signal in signals {
        sum += input_width(signal);
    }
    sum
}

/// How many bits the registers have together.
pub fn state_bits(signals: &[Signal]) -> u32
    requires { role_bits Register (map plain_signal signals.now) < 2 ^ 32 }
    ensures { result ≡ role_bits Register (map plain_signal signals.now) }
{
    let mut sum = 0u32;
    for signal in signals {
        sum += state_width(signal);
    }
    sum
}

// The word of a signal, where the next input and the next state have these nodes.
fn start_word(alloc: Global, signal: &Signal, input: u32, state: u32) -> Result<Vec<Edge>, NoMemory>
    requires inputs { input + taken Input signal.now.role signal.now.shape.width ≤ 2 ^ 31 }
    requires states { state + taken Register signal.now.role signal.now.shape.width ≤ 2 ^ 31 }
    ensures { IfOk result (λ r. r.items ≡ node_word signal.now.role signal.now.shape.width input state) }
{
    let width = signal.shape.width;
    match signal.role {
        Role::Input => nodes(alloc, input, width),
        Role::Register => nodes(alloc, state, width),
        Role::Clock | Role::Block | Role::Wire | Role::Idle => zeros(alloc, width),
    }
}

/// The wires before any gate: inputs are the nodes from 1 on, registers those behind so many inputs, all other bits are 0.
pub fn start_wires(alloc: Global, signals: &[Signal], inputs: u32) -> Result<Wires, NoMemory>
    requires inputs { 1 + role_bits Input (map plain_signal signals.now) ≤ 2 ^ 31 }
    requires states { 1 + inputs + role_bits Register (map plain_signal signals.now) ≤ 2 ^ 31 }
    ensures { IfOk result (λ wires. wires ≡ node_words (map plain_signal signals.now) 1 (1 + inputs)) }
{
    let mut wires = Wires::new(alloc);
    let mut input = 1u32;
    let mut state = 1 + inputs;
    for signal in signals {
        let word = start_word(alloc, signal, input, state)?;
        wires.push(word)?;
        input += input_width(signal);
        state += state_width(signal);
    }
    Ok(wires)
}

/// Wires of the signals' widths, all bits of which are 0.
pub fn blank_wires(alloc: Global, signals: &[Signal]) -> Result<Wires, NoMemory>
    ensures { IfOk result (λ wires. wires ≡ blank_words (map plain_signal signals.now)) }
{
    let mut wires = Wires::new(alloc);
    for signal in signals {
        let word = zeros(alloc, signal.shape.width)?;
        wires.push(word)?;
    }
    Ok(wires)
}
