// Verdicts on patterns without free bits.
use crate::asks::pattern;
use crate::checking::{
    Found, check, is_known, is_refuted, is_relation, is_unknown, word_starts_with,
};
use crate::circuits::{guarded, hidden_toggle, reset_at_once, self_xor, shift, toggle};
use rst_outside::NoMemory;
use rst_value::Tern;
use rst_value::Tern::{One, Zero};
use std::alloc::Global;
use std::test::Fail;

fn toggled(alloc: Global, places: &[Tern], budget: u32) -> Result<Found, NoMemory> {
    let gates = toggle(alloc)?;
    check(alloc, &gates, pattern(alloc, 1, places)?, budget)
}

fn hidden(alloc: Global, places: &[Tern], budget: u32) -> Result<Found, NoMemory> {
    let gates = hidden_toggle(alloc)?;
    check(alloc, &gates, pattern(alloc, 1, places)?, budget)
}

fn xored(alloc: Global, places: &[Tern], budget: u32) -> Result<Found, NoMemory> {
    let gates = self_xor(alloc)?;
    check(alloc, &gates, pattern(alloc, 1, places)?, budget)
}

fn shifted(alloc: Global, places: &[Tern], budget: u32) -> Result<Found, NoMemory> {
    let gates = shift(alloc)?;
    check(alloc, &gates, pattern(alloc, 1, places)?, budget)
}

fn held(alloc: Global, places: &[Tern], budget: u32) -> Result<Found, NoMemory> {
    let gates = reset_at_once(alloc)?;
    check(alloc, &gates, pattern(alloc, 1, places)?, budget)
}

fn guarding(alloc: Global, places: &[Tern], budget: u32) -> Result<Found, NoMemory> {
    let gates = guarded(alloc)?;
    check(alloc, &gates, pattern(alloc, 6, places)?, budget)
}

// What three values know costs no unit.
#[test]
fn a_known_pattern_takes_no_budget(rt: HostRuntime) -> Result<(), Fail> {
    let alloc = rt.alloc();
    assert!(rt; is_known(toggled(alloc, &[One], 10)?, 1));
    assert!(rt; is_known(toggled(alloc, &[One], 0)?, 1));
    assert!(rt; is_known(toggled(alloc, &[One, Zero], 0)?, 2));
    Ok(())
}

// No output reads the register.
#[test]
fn a_hidden_toggle_is_signed_without_cycles(rt: HostRuntime) -> Result<(), Fail> {
    let alloc = rt.alloc();
    assert!(rt; is_relation(hidden(alloc, &[], 20_000)?, 0, 0, 0));
    assert!(rt; is_unknown(hidden(alloc, &[], 0)?, 0));
    Ok(())
}

// Three values leave it at X, and a relation signs it behind one cycle.
#[test]
fn a_xor_with_itself_is_signed_behind_one_cycle(rt: HostRuntime) -> Result<(), Fail> {
    let alloc = rt.alloc();
    assert!(rt; is_relation(xored(alloc, &[Zero], 20_000)?, 1, 2, 0));
    assert!(rt; is_refuted(xored(alloc, &[], 20_000)?, 0, 1, 0));
    assert!(rt; is_unknown(xored(alloc, &[Zero], 0)?, 0));
    Ok(())
}

// Behind one cycle the output is what the second register was, and behind two it is known.
#[test]
fn a_shift_is_known_behind_two_cycles(rt: HostRuntime) -> Result<(), Fail> {
    let alloc = rt.alloc();
    assert!(rt; is_refuted(shifted(alloc, &[Zero], 20_000)?, 1, 1, 1));
    assert!(rt; is_known(shifted(alloc, &[Zero, Zero], 20_000)?, 2));
    Ok(())
}

// It resets at once, so that the word has to leave it alone in its first cycle.
#[test]
fn a_reset_that_is_not_given_is_refuted(rt: HostRuntime) -> Result<(), Fail> {
    let alloc = rt.alloc();
    let found = held(alloc, &[], 20_000)?;
    assert!(rt; is_refuted(found, 0, 1, 0));
    assert!(rt; word_starts_with(found, true));
    assert!(rt; is_known(held(alloc, &[Zero], 20_000)?, 1));
    Ok(())
}

// The valid bit is known, and each bit of the data is shut out where it is 1, each way round.
#[test]
fn guarded_data_are_signed_by_a_relation(rt: HostRuntime) -> Result<(), Fail> {
    let alloc = rt.alloc();
    let places = [One, Zero, Zero, Zero, Zero, Zero];
    assert!(rt; is_relation(guarding(alloc, &places, 20_000)?, 1, 8, 0));
    assert!(rt; is_unknown(guarding(alloc, &places, 5)?, 5));
    Ok(())
}

// Two hops and a path make the relation of the register, and that no pair lands takes one more path. A
// refutation that simulation finds takes no unit, but no budget finds none.
#[test]
fn too_small_budgets_are_spent(rt: HostRuntime) -> Result<(), Fail> {
    let alloc = rt.alloc();
    assert!(rt; is_unknown(toggled(alloc, &[Zero], 0)?, 0));
    assert!(rt; is_refuted(toggled(alloc, &[Zero], 1)?, 1, 1, 0));
    assert!(rt; is_unknown(xored(alloc, &[Zero], 3)?, 3));
    assert!(rt; is_relation(xored(alloc, &[Zero], 4)?, 1, 2, 0));
    Ok(())
}
