// Edges of whole signals in bit order.
ghost use Rattle.std.specs.Prelude.{◌≡◌, ◌++◌, ◌∷◌, [], cond, map, OnOk, IfOk};
ghost use Rattle.rst_net.specs.declared.signal.Role.TheVariants.{Register};
ghost use Rattle.rst_net.specs.Units.{plain_signal};
ghost use Rattle.rst_cycle.specs.Signals.{same_role, with_role};
ghost use Rattle.rst_lower.specs.WireWords.{word_of};
ghost use Rattle.rst_design_terms.specs.Designs.{turned, listed_words};
ghost use Rattle.rst_net_gates.specs.Netlists.{numbers_of};

use rst_gate::Edge;
use rst_lower::Wires;
use rst_net::Signal;
use rst_outside::NoMemory;
use rst_reset_gates::{is_register, number, turned};
use std::alloc::Global;

// Puts the bits of a signal behind others, the most significant first.
fn put(alloc: Global, wires: &Wires, signal: u32, edges: &mut Vec<Edge>) -> Result<(), NoMemory>
    ensures { OnOk result (edges.new.items ≡ edges.old.items ++ turned (word_of wires.now signal)) }
{
    if (signal as usize) < wires.len() {
        let word = turned(alloc, wires.word(signal))?;
        edges.extend_from_slice(&word)?;
    }
    Ok(())
}

/// The bits of these signals, of each the most significant first.
pub fn listed(alloc: Global, wires: &Wires, signals: &[u32]) -> Result<Vec<Edge>, NoMemory>
    ensures { IfOk result (λ r. r.items ≡ listed_words wires.now signals.now) }
{
    let mut edges = Vec::new(alloc);
    for signal in signals {
        put(alloc, wires, *signal, &mut edges)?;
    }
    Ok(edges)
}

// Puts the number of a signal behind others, if it is a register.
fn put_number(signal: &Signal, index: usize, numbers: &mut Vec<u32>) -> Result<(), NoMemory>
    ensures { OnOk result (numbers.new.items ≡ cond (same_role signal.now.role Register) (numbers.old.items ++ index ∷ []) numbers.old.items) }
{
    if is_register(signal.role) {
        numbers.push(number(index)?)?;
    }
    Ok(())
}

/// The numbers of the registers.
pub fn registers(alloc: Global, signals: &[Signal]) -> Result<Vec<u32>, NoMemory>
    ensures { IfOk result (λ r. r.items ≡ numbers_of (with_role Register (map plain_signal signals.now))) }
{
    let mut numbers = Vec::new(alloc);
    for k in 0..signals.len() {
        put_number(&signals[k], k, &mut numbers)?;
    }
    Ok(numbers)
}
