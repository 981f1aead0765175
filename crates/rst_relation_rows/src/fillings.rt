// Decisions of patterns with free bits.
use crate::asks::{Told, ask, pattern};
use crate::circuits::{guarded, shift, toggle};
use rst_value::Tern::{One, Unknown, Zero};
use std::test::Fail;

fn is_signed(told: Told, hops: usize) -> bool {
    match told {
        Told::Signed(h, _) => h == hops,
        _ => false,
    }
}

// The free bit may be 0, which doesn't reset the toggle.
#[test]
fn a_free_reset_is_refuted_by_a_filling(rt: HostRuntime) -> Result<(), Fail> {
    let alloc = rt.alloc();
    let gates = toggle(alloc)?;
    let told = match ask(alloc, &gates, pattern(alloc, 1, &[Unknown])?, 10)? {
        Told::Refuted(counts, inputs, states) => {
            counts[0] == 1 && counts[1] == 1 && !inputs[0] && states[0] != states[1]
        }
        _ => false,
    };
    assert!(rt; told);
    Ok(())
}

#[test]
fn a_free_bit_before_the_reset_is_signed(rt: HostRuntime) -> Result<(), Fail> {
    let alloc = rt.alloc();
    let gates = toggle(alloc)?;
    assert!(rt;
        is_signed(
            ask(alloc, &gates, pattern(alloc, 1, &[Unknown, One])?, 10)?,
            0
        )
    );
    Ok(())
}

// Both states take the same filling, so the registers are equal behind two cycles, though no value of
// them is known.
#[test]
fn free_bits_are_the_same_for_both_states(rt: HostRuntime) -> Result<(), Fail> {
    let alloc = rt.alloc();
    let gates = shift(alloc)?;
    assert!(rt;
        is_signed(
            ask(alloc, &gates, pattern(alloc, 1, &[Unknown, Unknown])?, 100)?,
            4
        )
    );
    Ok(())
}

// Loaded or not, the outputs are the same; the data of a cycle that doesn't load may be free.
#[test]
fn guarded_data_are_signed_with_free_bits(rt: HostRuntime) -> Result<(), Fail> {
    let alloc = rt.alloc();
    let gates = guarded(alloc)?;
    let data = pattern(alloc, 6, &[One, Zero, Unknown, Unknown, Unknown, Unknown])?;
    assert!(rt; is_signed(ask(alloc, &gates, data, 1000)?, 8));
    let load = pattern(alloc, 6, &[Zero, Unknown, Zero, Zero, One, One])?;
    assert!(rt; is_signed(ask(alloc, &gates, load, 1000)?, 10));
    Ok(())
}
