// Verdicts on patterns with free bits.
use crate::asks::pattern;
use crate::checking::{
    Found, check, is_refuted, is_relation, is_unknown, starts_with, word_starts_with,
};
use crate::circuits::{guarded, reset_at_once, shift, toggle};
use rst_outside::NoMemory;
use rst_value::Tern;
use rst_value::Tern::{One, Unknown, Zero};
use std::alloc::Global;
use std::test::Fail;

fn shifted(alloc: Global, places: &[Tern], budget: u32) -> Result<Found, NoMemory> {
    let gates = shift(alloc)?;
    check(alloc, &gates, pattern(alloc, 1, places)?, budget)
}

fn toggled(alloc: Global, places: &[Tern]) -> Result<Found, NoMemory> {
    let gates = toggle(alloc)?;
    check(alloc, &gates, pattern(alloc, 1, places)?, 20_000)
}

fn held(alloc: Global, places: &[Tern]) -> Result<Found, NoMemory> {
    let gates = reset_at_once(alloc)?;
    check(alloc, &gates, pattern(alloc, 1, places)?, 20_000)
}

fn guarding(alloc: Global, places: &[Tern]) -> Result<Found, NoMemory> {
    let gates = guarded(alloc)?;
    check(alloc, &gates, pattern(alloc, 6, places)?, 20_000)
}

// Both states take the same bits. The pattern is signed with its free bits as they are.
#[test]
fn a_shift_of_free_bits_is_signed_behind_two_cycles(rt: HostRuntime) -> Result<(), Fail> {
    let alloc = rt.alloc();
    assert!(rt; is_relation(shifted(alloc, &[Unknown, Unknown], 4490)?, 2, 4, 1));
    assert!(rt; is_unknown(shifted(alloc, &[Unknown, Unknown], 5)?, 5));
    Ok(())
}

// Whatever the one bit is, the second register is what tells the states apart.
#[test]
fn a_shift_of_a_free_bit_is_refuted_behind_one_cycle(rt: HostRuntime) -> Result<(), Fail> {
    let alloc = rt.alloc();
    assert!(rt; is_refuted(shifted(alloc, &[Unknown], 20_000)?, 1, 1, 1));
    Ok(())
}

// The filling is the one that doesn't reset.
#[test]
fn a_free_reset_is_refuted(rt: HostRuntime) -> Result<(), Fail> {
    let alloc = rt.alloc();
    let found = toggled(alloc, &[Unknown])?;
    assert!(rt; is_refuted(found, 1, 1, 0));
    assert!(rt; starts_with(found, false));
    Ok(())
}

#[test]
fn a_free_reset_at_once_is_refuted(rt: HostRuntime) -> Result<(), Fail> {
    let alloc = rt.alloc();
    let found = held(alloc, &[Unknown])?;
    assert!(rt; is_refuted(found, 1, 1, 0));
    assert!(rt; starts_with(found, true));
    assert!(rt; word_starts_with(found, true));
    Ok(())
}

// The data are free while the valid bit is reset.
#[test]
fn guarded_data_are_signed_with_free_data(rt: HostRuntime) -> Result<(), Fail> {
    let alloc = rt.alloc();
    let places = [One, Zero, Unknown, Unknown, Unknown, Unknown];
    assert!(rt; is_relation(guarding(alloc, &places)?, 1, 8, 4));
    Ok(())
}
