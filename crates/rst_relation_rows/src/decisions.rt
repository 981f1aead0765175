// Decisions of patterns without free bits.
use crate::asks::{Told, ask, pattern};
use crate::circuits::{guarded, hidden_toggle, self_xor, shift, toggle};
use rst_outside::NoMemory;
use rst_value::Tern;
use rst_value::Tern::{One, Zero};
use std::alloc::Global;
use std::test::Fail;

fn is_signed(told: Told, hops: usize) -> bool {
    match told {
        Told::Signed(h, _) => h == hops,
        _ => false,
    }
}

fn is_unknown(told: Told, entries: usize) -> bool {
    match told {
        Told::Unknown(e) => e == entries,
        _ => false,
    }
}

// Whether it is refuted behind so many cycles by a word of so many, from states whose first bits differ.
fn is_refuted(told: Told, cycles: usize, word: usize) -> bool {
    match told {
        Told::Refuted(counts, _, states) => {
            counts[0] == cycles && counts[1] == word && states[0] != states[1]
        }
        _ => false,
    }
}

fn hidden(alloc: Global, places: &[Tern], budget: u32) -> Result<Told, NoMemory> {
    let gates = hidden_toggle(alloc)?;
    ask(alloc, &gates, pattern(alloc, 1, places)?, budget)
}

fn xored(alloc: Global, places: &[Tern], budget: u32) -> Result<Told, NoMemory> {
    let gates = self_xor(alloc)?;
    ask(alloc, &gates, pattern(alloc, 1, places)?, budget)
}

fn shifted(alloc: Global, places: &[Tern], budget: u32) -> Result<Told, NoMemory> {
    let gates = shift(alloc)?;
    ask(alloc, &gates, pattern(alloc, 1, places)?, budget)
}

fn toggled(alloc: Global, places: &[Tern], budget: u32) -> Result<Told, NoMemory> {
    let gates = toggle(alloc)?;
    ask(alloc, &gates, pattern(alloc, 1, places)?, budget)
}

fn guarding(alloc: Global, places: &[Tern], budget: u32) -> Result<Told, NoMemory> {
    let gates = guarded(alloc)?;
    ask(alloc, &gates, pattern(alloc, 6, places)?, budget)
}

// No output reads the register, so that any two states behave the same: signed behind any sequence.
#[test]
fn hidden_toggle_is_signed(rt: HostRuntime) -> Result<(), Fail> {
    let alloc = rt.alloc();
    assert!(rt; is_signed(hidden(alloc, &[Zero], 10)?, 0));
    assert!(rt; is_signed(hidden(alloc, &[], 10)?, 0));
    Ok(())
}

// Three values don't know the register behind any sequence, but it is 0 behind one cycle. Before it
// the two states differ.
#[test]
fn self_xor_is_signed_behind_one_cycle(rt: HostRuntime) -> Result<(), Fail> {
    let alloc = rt.alloc();
    assert!(rt; is_signed(xored(alloc, &[Zero], 10)?, 2));
    assert!(rt; is_refuted(xored(alloc, &[], 10)?, 0, 1));
    Ok(())
}

// Behind one cycle the second register is known, and the first is what the second was.
#[test]
fn shift_pair_takes_two_cycles(rt: HostRuntime) -> Result<(), Fail> {
    let alloc = rt.alloc();
    assert!(rt; is_signed(shifted(alloc, &[Zero, One], 10)?, 0));
    let told = match shifted(alloc, &[One], 10)? {
        Told::Refuted(counts, inputs, _) => counts[0] == 1 && counts[1] == 1 && inputs[0],
        _ => false,
    };
    assert!(rt; told);
    Ok(())
}

#[test]
fn the_toggle_without_reset_is_refuted(rt: HostRuntime) -> Result<(), Fail> {
    let alloc = rt.alloc();
    assert!(rt; is_refuted(toggled(alloc, &[Zero, Zero], 10)?, 2, 1));
    assert!(rt; is_signed(toggled(alloc, &[Zero, One], 10)?, 0));
    Ok(())
}

// Without a unit nothing is decided that three values don't know, and with too few neither.
#[test]
fn a_budget_of_none_is_unknown(rt: HostRuntime) -> Result<(), Fail> {
    let alloc = rt.alloc();
    assert!(rt; is_unknown(hidden(alloc, &[Zero], 0)?, 0));
    assert!(rt; is_unknown(hidden(alloc, &[Zero], 1)?, 1));
    assert!(rt; is_unknown(toggled(alloc, &[Zero], 0)?, 0));
    assert!(rt; is_unknown(xored(alloc, &[Zero], 2)?, 2));
    Ok(())
}

// The valid bit is known and marked; the data differ only where it is 1, each bit each way round.
#[test]
fn guarded_data_are_signed_unloaded(rt: HostRuntime) -> Result<(), Fail> {
    let alloc = rt.alloc();
    assert!(rt;
        is_signed(
            guarding(alloc, &[One, Zero, Zero, Zero, Zero, Zero], 1000)?,
            8
        )
    );
    assert!(rt;
        is_signed(
            guarding(alloc, &[Zero, One, Zero, One, Zero, One], 1000)?,
            0
        )
    );
    Ok(())
}
